// The best price ahead, in tables that are best first.
ghost use Rattle.std.specs.Prelude.{◌≡◌, ◌≤◌, map, length, drop};
ghost use Rattle.terms.specs.Sides.{side_number};
ghost use Rattle.kept.specs.Ranked.{better};
ghost use Rattle.trade.specs.Prices.{ahead, best, best_ahead};
ghost use Rattle.trade.specs.State.{Inside, state_of, to_come};

use crate::market::Market;
use crate::reached::Reached;
use kept::Standing;
use terms::Side;

// Whether a price is better than another on a side.
pub(crate) fn better(side: Side, price: u32, other: u32) -> bool
    ensures { result ≡ better (side_number side) price other }
{
    kept::better(side.number(), price, other)
}

// The better of two prices, or the one that there is.
fn best_of(side: Side, price: Option<u32>, other: Option<u32>) -> Option<u32>
    ensures { result ≡ best (side_number side) price other }
{
    match (price, other) {
        (Some(p), Some(q)) if !better(side, q, p) => price,
        (Some(_), None) => price,
        _ => other,
    }
}

// The price of the record at a place, if one stands there.
fn price_at<R: Standing + Copy>(records: &[R], at: usize) -> Option<u32>
    requires { at ≤ length records.now }
    ensures { result ≡ ahead (map R.Standing.shown (drop at records.now)) }
{
    records[at..].first().map(|standing| standing.price())
}

impl<M, F> Market<'_, M, F> {
    // The best price from the places on that a Trade has come to, if a record is left.
    pub(crate) fn best_ahead(&self, side: Side, at: Reached) -> Option<u32>
        requires { Inside at (state_of self.now) }
        ensures { result ≡ best_ahead (side_number side) (to_come at (state_of self.now)) }
    {
        let c = price_at(self.customers, at.customers);
        let m = price_at(self.makers, at.makers);
        let f = price_at(self.firms, at.firms);
        best_of(side, best_of(side, c, m), f)
    }
}
