// The two layouts of a block, told apart by its length.
ghost use Rattle.std.specs.Prelude.{◌≡◌};
ghost use Rattle.blocks.specs.Layouts.{layout_or_refusal, most_holder, places_of};

use terms::{MOST_ORDER_NUMBER, MOST_PARTY, Refusal};

// The numbers of a block: how many fills, their total, and two arrays of 64 or 16 entries.
pub const ORDER_BLOCK: usize = 130;

pub const MAKER_BLOCK: usize = 34;

#[derive(Clone, Copy)]
pub enum Layout {
    // for customers and firms: a holder is an order
    Orders,
    // for makers: a holder is a party
    Makers,
}

impl TryFrom<usize> for Layout {
    type Error = Refusal;

    ghost try_from_gives = { λ len r. r ≡ layout_or_refusal len };

    // The layout of a block of so many numbers; another length is refused with 16.
    fn try_from(len: usize) -> Result<Layout, Refusal> {
        match len {
            ORDER_BLOCK => Ok(Layout::Orders),
            MAKER_BLOCK => Ok(Layout::Makers),
            _ => Err(Refusal::WrongLength),
        }
    }
}

impl Layout {
    // How many fills a block can show.
    pub fn places(self) -> usize
        ensures { result ≡ places_of self }
    {
        match self {
            Layout::Orders => 64,
            Layout::Makers => 16,
        }
    }

    // The highest number of a holder.
    pub fn most_holder(self) -> u32
        ensures { result ≡ most_holder self }
    {
        match self {
            Layout::Orders => MOST_ORDER_NUMBER,
            Layout::Makers => MOST_PARTY,
        }
    }
}
