// One level, a price that a Trade has come to: customers are served first, then makers, then firms.
ghost use Rattle.model.specs.Trading.{rule as meaning};
ghost use Rattle.trade.specs.Level.{Ready, ServesLevel};
ghost use Rattle.trade.specs.State.{SameRoom, state_of};

use crate::market::Market;
use crate::reached::Reached;
use serving::{Portion, serve};
use sharing::{SharingRule, TimeOrder};
use terms::{MOST_ORDERS, MOST_QUOTES};

impl<M: SharingRule, F: SharingRule> Market<'_, M, F> {
    // Serves the three classes at a price. Each takes of what the one before it left, and all know how much arrived.
    pub(crate) fn serve_level(&mut self, price: u32, directed: u32, at: Reached) -> Reached
        requires { Ready at (state_of self.old) }
        ensures serves { ServesLevel (meaning M.SharingRule.shares M.SharingRule.next) (meaning F.SharingRule.shares F.SharingRule.next) price directed at (state_of self.old) result (state_of self.new) }
        ensures same { SameRoom self.old self.new }
    {
        let all = Portion {
            arriving: at.left,
            number: at.left,
            directed,
        };
        let c = serve(
            self.customers,
            at.customers,
            price,
            all,
            &mut TimeOrder,
            self.customer_block,
            MOST_ORDERS,
        );
        let rest = Portion {
            number: c.left,
            ..all
        };
        let m = serve(
            self.makers,
            at.makers,
            price,
            rest,
            self.makers_rule,
            self.maker_block,
            MOST_QUOTES,
        );
        let last = Portion {
            number: m.left,
            ..all
        };
        let f = serve(
            self.firms,
            at.firms,
            price,
            last,
            self.firms_rule,
            self.firm_block,
            MOST_ORDERS,
        );
        Reached {
            customers: c.to,
            makers: m.to,
            firms: f.to,
            left: f.left,
        }
    }
}
