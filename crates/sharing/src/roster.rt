// The roster: the parties of a day in the order in which they were drawn.
ghost use Rattle.std.specs.Prelude.{◌≡◌, ◌≤◌, true, take};
ghost use Rattle.sharing.specs.Making.{drawable};

use terms::MOST_PARTIES;

// At most 16 parties, each from 1 to 65,535, none twice. A row with its own count would make it, and every rule, a type that is moved.
#[derive(Clone, Copy)]
pub struct Roster {
    pub(crate) parties: [u32; MOST_PARTIES],
    pub(crate) count: usize,
    ghost sound: { (count ≤ 16) × (drawable (take count parties) ≡ true) },
}
