// The draw rule, the makers' rule: making it, its turn, and how it shares.
ghost use Rattle.std.specs.Prelude.{◌≡◌, ◌<◌, true, false, [], length, if◌then◌else◌, MatchOption, MatchResult, slice_index};
ghost use Rattle.sharing.specs.Made.{begun, drawn, shares_of, next_of};
ghost use Rattle.sharing.specs.Making.{draws, why_not};
ghost use Rattle.sharing.specs.Counts.{distinct_single};
ghost use Rattle.sharing.specs.Remaining.{draw_fair, draw_still};
ghost use Rattle.sharing.specs.Rosters.{roster_once, still_rule};

use crate::asked::Asked;
use crate::draw_rule::{DrawRule, DrawState};
use crate::entitlement::share_base;
use crate::leftovers::{give_by_turn, give_outside};
use crate::roster::Roster;
use crate::rule::SharingRule;
use terms::{Refusal, sum};

impl DrawRule {
    // The rule for a day's roster and its specialist, 0 for none, with the first at the turn. Refused as the roster is.
    pub fn draw(parties: &[u32], specialist: u32) -> Result<DrawRule, Refusal>
        ensures { MatchResult result (λ rule. (draws parties.now specialist ≡ true) × begun parties.now specialist rule) (λ why. (draws parties.now specialist ≡ false) × (why ≡ why_not parties.now)) }
    {
        let roster = Roster::draw_with(parties, specialist)?;
        Ok(DrawRule {
            roster,
            specialist,
            state: DrawState { turn: 0 },
        })
    }

    // The same; where it would be refused, it is made from an empty roster and no specialist.
    pub fn new(parties: &[u32], specialist: u32) -> DrawRule
        ensures roster { drawn result.roster ≡ (if draws parties.now specialist then parties.now else []) }
        ensures specialist { result.specialist ≡ (if draws parties.now specialist then specialist else 0) }
        ensures turn { result.state.turn ≡ 0 }
    {
        DrawRule::draw(parties, specialist).unwrap_or_default()
    }

    // The party whose turn it is; none where the roster is empty.
    pub fn turn(&self) -> Option<u32>
        ensures { MatchOption result (drawn self.now.roster ≡ []) (λ party. (self.now.state.turn < length (drawn self.now.roster)) × (party ≡ slice_index (drawn self.now.roster) self.now.state.turn)) }
    {
        self.roster.parties().get(self.state.turn).copied()
    }
}

impl Default for DrawRule {
    ghost is_default = { begun [] 0 };

    fn default() -> DrawRule {
        DrawRule {
            roster: Roster::empty(),
            specialist: 0,
            state: DrawState { turn: 0 },
        }
    }
}

impl SharingRule for DrawRule {
    ghost shares = { shares_of };

    ghost next = { next_of };

    ghost keeps = { record {
      fair = λ s i v. draw_fair (drawn s.roster) s.specialist s.state.turn i (distinct_single (drawn s.roster) (roster_once s.roster)) v;
      still = λ s i v k. still_rule s i (draw_still (drawn s.roster) s.specialist s.state.turn i v k);
    } };

    fn share(&mut self, asked: Asked<'_>, out: &mut [u32]) {
        let total = sum(asked.sizes);
        if asked.number >= total {
            out.copy_from_slice(asked.sizes);
            return;
        }
        share_base(self.specialist, total, asked, out);
        let left = asked.number - sum(out);
        let left = give_by_turn(&self.roster, &mut self.state, left, asked, out);
        give_outside(&self.roster, left, asked, out);
    }
}
