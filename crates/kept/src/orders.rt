// The order of a customer or of an off-floor firm. It ranks by price.
ghost use Rattle.kept.specs.Orders.{order_ranks, no_order, order_answers, order_shown, order_lower};
ghost use Rattle.std.proofs.Common.{rules};

use crate::ranked::{Keyed, Ranked, better};
use crate::standing::Standing;

#[derive(Clone, Copy, Debug, Default, PartialEq, Eq)]
pub struct Order {
    pub number: u32,
    pub price: u32,
    pub left: u32,
}

impl Ranked for Order {
    ghost ranks = { order_ranks };

    ghost cleared = { no_order };

    ghost total = { Prim.search rules };

    ghost chained = { Prim.search rules };

    fn no_worse(&self, side: u32, other: &Order) -> bool {
        !better(side, other.price, self.price)
    }

    fn blank() -> Order {
        Order::default()
    }
}

impl Keyed for Order {
    ghost answers = { order_answers };

    fn answers_to(&self, key: u32) -> bool {
        key == self.number
    }
}

impl Standing for Order {
    ghost shown = { order_shown };

    ghost lower = { order_lower };

    ghost still = { Prim.search rules };

    ghost again = { Prim.search rules };

    ghost shows = { Prim.search rules };

    fn holder(&self) -> u32 {
        self.number
    }

    fn price(&self) -> u32 {
        self.price
    }

    fn left(&self) -> u32 {
        self.left
    }

    fn lowered(&self, by: u32) -> Order {
        Order {
            left: self.left - by,
            ..*self
        }
    }
}
