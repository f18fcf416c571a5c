// The quote of a maker. It ranks by price, and then by its maker's place in the draw.
ghost use Rattle.kept.specs.Quotes.{quote_ranks, no_quote, quote_answers, quote_shown, quote_lower};
ghost use Rattle.std.proofs.Common.{rules};

use crate::ranked::{Keyed, Ranked, better};
use crate::standing::Standing;

#[derive(Clone, Copy, Debug, Default, PartialEq, Eq)]
pub struct Quote {
    pub party: u32,
    pub price: u32,
    pub left: u32,
    pub place: u32,
}

impl Ranked for Quote {
    ghost ranks = { quote_ranks };

    ghost cleared = { no_quote };

    ghost total = { Prim.search rules };

    ghost chained = { Prim.search rules };

    fn no_worse(&self, side: u32, other: &Quote) -> bool {
        better(side, self.price, other.price)
            || (self.price == other.price && self.place <= other.place)
    }

    fn blank() -> Quote {
        Quote::default()
    }
}

impl Keyed for Quote {
    ghost answers = { quote_answers };

    fn answers_to(&self, key: u32) -> bool {
        key == self.party
    }
}

impl Standing for Quote {
    ghost shown = { quote_shown };

    ghost lower = { quote_lower };

    ghost still = { Prim.search rules };

    ghost again = { Prim.search rules };

    ghost shows = { Prim.search rules };

    fn holder(&self) -> u32 {
        self.party
    }

    fn price(&self) -> u32 {
        self.price
    }

    fn left(&self) -> u32 {
        self.left
    }

    fn lowered(&self, by: u32) -> Quote {
        Quote {
            left: self.left - by,
            ..*self
        }
    }
}
