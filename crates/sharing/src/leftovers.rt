// The draw rule's leftovers: one each by turn round the roster, and then to the holders outside it.
ghost use Rattle.std.specs.Prelude.{◌≡◌, true, [], ◌∷◌, length, take, if◌then◌else◌};
ghost use Rattle.terms.specs.Numbers.{listed as stands_in};
ghost use Rattle.sharing.specs.Draw.{outside, unspent, with_leftovers};
ghost use Rattle.sharing.specs.Made.{drawn};
ghost use Rattle.sharing.specs.Making.{turns_at};
ghost use Rattle.sharing.specs.Placed.{Turned};

use crate::asked::Asked;
use crate::draw_rule::DrawState;
use crate::roster::Roster;
use terms::place;

// Gives a party one contract more if it stands with size unspent, and says whether it did.
fn give_one(party: u32, asked: Asked<'_>, shares: &mut [u32]) -> bool
    requires { length shares.old ≡ length asked.sizes.now }
    ensures gave { result ≡ stands_in party (unspent asked.entry.holders.now asked.entry.sizes.now shares.old) }
    ensures shares { shares.new ≡ (if result then with_leftovers (party ∷ []) asked.entry.holders.now shares.old else shares.old) }
{
    match place(asked.holders, party) {
        Some(at) if shares[at] < asked.sizes[at] => {
            shares[at] += 1;
            true
        },
        _ => false,
    }
}

// One leftover each to the roster's holders with size unspent, from the turn on round the roster. The turn then stands behind the
// last that received one. Returns what is left.
pub(crate) fn give_by_turn(
    roster: &Roster,
    state: &mut DrawState,
    left: u32,
    asked: Asked<'_>,
    shares: &mut [u32],
) -> u32
    requires room { length shares.old ≡ length asked.sizes.now }
    requires turn { turns_at state.old.turn (drawn roster.now) ≡ true }
    ensures { Turned (drawn roster.now) state.old.turn left asked.entry.holders.now asked.entry.sizes.now shares.old result state.new.turn shares.new }
{
    let mut left = left;
    let (before, after) = roster.parties().split_at(state.turn);
    for &party in after.iter().chain(before) {
        if left > 0 && give_one(party, asked, shares) {
            left -= 1;
            state.turn = roster.behind(party);
        }
    }
    left
}

// One leftover each in list order to the holders outside the roster with size unspent.
pub(crate) fn give_outside(roster: &Roster, left: u32, asked: Asked<'_>, shares: &mut [u32])
    requires { length shares.old ≡ length asked.sizes.now }
    ensures { shares.new ≡ with_leftovers (take left (outside (unspent asked.entry.holders.now asked.entry.sizes.now shares.old) (drawn roster.now))) asked.entry.holders.now shares.old }
{
    let mut left = left;
    for &holder in asked.holders {
        if left > 0 && !roster.has(holder) && give_one(holder, asked, shares) {
            left -= 1;
        }
    }
}
