// Drawing a roster, and places in it.
ghost use Rattle.std.specs.Prelude.{◌≡◌, ◌+◌, ◌-◌, ◌<◌, ◌≤◌, Bool, true, false, [], length, if◌then◌else◌, MatchResult, nat_lt, position, slice_index, unwrap_or, ◌==◌};
ghost use Rattle.terms.specs.Numbers.{listed as stands_in, place as place_of};
ghost use Rattle.sharing.specs.Making.{drawable, draws, why_not};
ghost use Rattle.sharing.specs.Draw.{behind as behind_of};
ghost use Rattle.sharing.specs.Made.{drawn};

use crate::roster::Roster;
use terms::{MOST_PARTIES, MOST_PARTY, Refusal, all_within, distinct, listed, place};

impl Roster {
    // The roster of these parties in this order; refused where they are more than 16, out of range or repeated.
    pub fn draw(parties: &[u32]) -> Result<Roster, Refusal>
        ensures { MatchResult result (λ roster. (drawable parties.now ≡ true) × (drawn roster ≡ parties.now)) (λ why. (drawable parties.now ≡ false) × (why ≡ why_not parties.now)) }
    {
        let count = parties.len();
        if count > MOST_PARTIES {
            return Err(Refusal::TooManyParties);
        }
        if !all_within(MOST_PARTY, parties) || !distinct(parties) {
            return Err(Refusal::BadParty);
        }
        let mut places = [0; MOST_PARTIES];
        places[0..count].copy_from_slice(parties);
        Ok(Roster {
            parties: places,
            count,
        })
    }

    // The same for a day with a specialist, 0 for none; refused too where the specialist is not drawn.
    pub fn draw_with(parties: &[u32], specialist: u32) -> Result<Roster, Refusal>
        ensures { MatchResult result (λ roster. (draws parties.now specialist ≡ true) × (drawn roster ≡ parties.now)) (λ why. (draws parties.now specialist ≡ false) × (why ≡ why_not parties.now)) }
    {
        let roster = Roster::draw(parties)?;
        if specialist != 0 && !roster.has(specialist) {
            return Err(Refusal::SpecialistNotDrawn);
        }
        Ok(roster)
    }

    // The roster that nobody is on.
    pub fn empty() -> Roster
        ensures { drawn result ≡ [] }
    {
        Roster {
            parties: [0; MOST_PARTIES],
            count: 0,
        }
    }

    // The parties in drawn order.
    pub fn parties(&self) -> &[u32]
        ensures { result.now ≡ drawn self.now }
    {
        &self.parties[0..self.count]
    }

    // How many parties are drawn.
    pub fn len(&self) -> usize
        ensures { result ≡ length (drawn self.now) }
    {
        self.parties().len()
    }

    // The party's place in the draw, from 0.
    pub fn place(&self, party: u32) -> Option<usize>
        ensures found { result ≡ position (λ other. other == party) (drawn self.now) }
        ensures place { unwrap_or result (length (drawn self.now)) ≡ place_of (drawn self.now) party }
    {
        place(self.parties(), party)
    }

    // Whether the party is drawn.
    pub fn has(&self, party: u32) -> bool
        ensures { result ≡ stands_in party (drawn self.now) }
    {
        listed(party, self.parties())
    }

    // The place behind a party's; the first follows the last.
    pub(crate) fn behind(&self, party: u32) -> usize
        ensures { result ≡ behind_of (drawn self.now) party }
    {
        match self.place(party) {
            Some(at) if at + 1 < self.count => at + 1,
            _ => 0,
        }
    }
}
