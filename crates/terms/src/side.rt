// The two sides of a book.
ghost use Rattle.std.specs.Prelude.{◌≡◌};
ghost use Rattle.terms.specs.Sides.{side_of, side_number};

#[derive(Clone, Copy, PartialEq, Eq, Debug)]
pub enum Side {
    Bids = 1,
    Offers = 2,
}

impl Side {
    // The number by which the markets know the side.
    pub fn number(self) -> u32
        ensures { result ≡ side_number self }
    {
        self as u32
    }
}

// Number 1 is bids. Every other number is read as offers, since a book on a side that is neither 1 nor 2 is never made.
impl From<u32> for Side {
    ghost from_gives = { λ number side. side ≡ side_of number };

    fn from(number: u32) -> Side {
        if number == 1 {
            Side::Bids
        } else {
            Side::Offers
        }
    }
}
