// The entries of one class at the price: who stands there, in list order, and with how many contracts.
ghost use Rattle.std.specs.Prelude.{◌≡◌, ◌≤◌, true, take};
ghost use Rattle.terms.specs.Numbers.{all_within, distinct};

use terms::MOST_ENTRIES;

// At most 64 holders, none twice, each with 1 to 99,999 contracts. A rule is asked by two rows, so holders stand beside sizes. Entries
// are copied, as an `ArrayVec` is not, so the rows have a count beside them.
#[derive(Clone, Copy)]
pub struct Entries {
    pub(crate) holders: [u32; MOST_ENTRIES],
    pub(crate) sizes: [u32; MOST_ENTRIES],
    pub(crate) count: usize,
    ghost sound: { (count ≤ 64) × (distinct (take count holders) ≡ true) × (all_within 99999 (take count sizes) ≡ true) },
}
