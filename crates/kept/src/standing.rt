// A standing record: a ranked record that has contracts left besides.
ghost use Rattle.std.specs.Prelude.{◌≡◌, ℕ, ◌+◌, ◌-◌, ◌≤◌};
ghost use Rattle.kept.specs.Standing.{Interest, with_left};

use crate::ranked::Ranked;

pub trait Standing: Ranked {
    // The interest that the record shows: holder, price and contracts left.
    ghost shown: { Self → Interest };

    // The same record with so many contracts fewer.
    ghost lower: { Self → ℕ → Self };

    fn holder(&self) -> u32
        ensures { result ≡ (shown self.now).holder };

    fn price(&self) -> u32
        ensures { result ≡ (shown self.now).price };

    fn left(&self) -> u32
        ensures { result ≡ (shown self.now).left };

    fn lowered(&self, by: u32) -> Self
        requires { by ≤ (shown self.now).left }
        ensures { result ≡ lower self.now by };

    // Lowered by 0, a record is as it was.
    ghost still: { (x : Self) → lower x 0 ≡ x };

    // Lowered twice is lowered by both.
    ghost again: { (x : Self) (m n : ℕ) → lower (lower x m) n ≡ lower x (m + n) };

    // Only the contracts left change.
    ghost shows: { (x : Self) (n : ℕ) → shown (lower x n) ≡ with_left ((shown x).left - n) (shown x) };
}
