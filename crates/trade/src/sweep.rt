// A Trade over the levels of three tables, the best first.
ghost use Rattle.terms.specs.Sides.{side_number};
ghost use Rattle.model.specs.Trading.{rule as meaning};
ghost use Rattle.trade.specs.Level.{Ready};
ghost use Rattle.trade.specs.Prices.{BestFirst};
ghost use Rattle.trade.specs.State.{SameRoom, start, state_of, to_come};
ghost use Rattle.trade.specs.Sweep.{Sweeps};

use crate::incoming::Incoming;
use crate::market::Market;
use crate::prices::better;
use crate::reached::Reached;
use sharing::SharingRule;
use terms::Side;

impl<M: SharingRule, F: SharingRule> Market<'_, M, F> {
    // Serves level after level, while contracts are left and the price is no worse than the limit. Records are lowered, and none
    // leaves yet. Returns the contracts that are left.
    pub(crate) fn trade_levels(&mut self, side: Side, incoming: Incoming) -> u32
        requires ready { Ready (start incoming) (state_of self.old) }
        requires sorted { BestFirst (side_number side) (to_come (start incoming) (state_of self.old)) }
        ensures sweeps { Sweeps (meaning M.SharingRule.shares M.SharingRule.next) (meaning F.SharingRule.shares F.SharingRule.next) (side_number side) incoming (state_of self.old) result (state_of self.new) }
        ensures same { SameRoom self.old self.new }
    {
        let mut at = Reached {
            customers: 0,
            makers: 0,
            firms: 0,
            left: incoming.size,
        };
        while at.left > 0 {
            let Some(price) = self.best_ahead(side, at) else {
                return at.left;
            };
            if better(side, incoming.limit, price) {
                return at.left;
            }
            at = self.serve_level(price, incoming.directed, at);
        }
        at.left
    }
}
