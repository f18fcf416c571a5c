// Rank: which of two prices is better on a side, and what a record must show to be ranked.
ghost use Rattle.std.specs.Prelude.{◌≡◌, ℕ, Bool, true, ◌||◌, length, replicate};
ghost use Rattle.kept.specs.Ranked.{better};

use terms::Side;

// Whether a price is better than another on the side of that number: the higher of two bids, the lower of two offers.
pub fn better(side: u32, price: u32, other: u32) -> bool
    ensures { result ≡ better side price other }
{
    match Side::from(side) {
        Side::Bids => price > other,
        Side::Offers => price < other,
    }
}

// A record that has a rank on a side, which `Ord` has no room for. Kinds that rank alike on both sides ignore the side.
pub trait Ranked: Sized {
    // Whether the first record is no worse than the second, on the side of that number.
    ghost ranks: { ℕ → Self → Self → Bool };

    // What a place without a record holds.
    ghost cleared: { Self };

    fn no_worse(&self, side: u32, other: &Self) -> bool
        ensures { result ≡ ranks side self.now other.now };

    fn blank() -> Self
        ensures { result ≡ cleared };

    // Of two records, one is no worse than the other.
    ghost total: { (side : ℕ) (x y : Self) → (ranks side x y || ranks side y x) ≡ true };

    // "No worse" carries along a chain.
    ghost chained: { (side : ℕ) (x y z : Self) → ranks side x y ≡ true → ranks side y z ≡ true → ranks side x z ≡ true };
}

// Clears places: each then holds what a place without a record does.
pub fn clear<R: Ranked + Copy>(places: &mut [R])
    ensures { places.new ≡ replicate (length places.old) R.Ranked.cleared }
{
    // `fill` asks that cloning a record cannot fail, which its being `Copy` does not say
    for place in places.iter_mut() {
        *place = R::blank();
    }
}

// A ranked record that can be looked up by a number.
pub trait Keyed: Ranked {
    // Whether the record goes by the number.
    ghost answers: { Self → ℕ → Bool };

    fn answers_to(&self, key: u32) -> bool
        ensures { result ≡ answers self.now key };
}
