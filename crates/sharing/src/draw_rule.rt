// The draw rule's state, and the rule itself.
ghost use Rattle.std.specs.Prelude.{◌≡◌, true, take};
ghost use Rattle.sharing.specs.Making.{may_specialize, turns_at};

use crate::roster::Roster;

// What changes from one sharing to the next. The turn is the place in the roster at which the next leftovers begin.
#[derive(Clone, Copy)]
pub struct DrawState {
    pub(crate) turn: usize,
}

// The makers' rule, made from the day's roster and a specialist, 0 for none.
#[derive(Clone, Copy)]
pub struct DrawRule {
    pub(crate) roster: Roster,
    pub(crate) specialist: u32,
    pub(crate) state: DrawState,
    ghost sound: { (may_specialize specialist (take roster.count roster.parties) ≡ true) × (turns_at state.turn (take roster.count roster.parties) ≡ true) },
}
