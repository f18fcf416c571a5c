// What can be wrong with a line.
ghost use Rattle.std.specs.Prelude.{◌≡◌, Some};
ghost use Rattle.shares.specs.Faults.{fault_of, text_of};

use std::error::Error;
use std::fmt;
use terms::Refusal;

#[derive(Clone, Copy, PartialEq, Eq, Debug)]
pub enum Fault {
    // the line
    TooLong,
    Word,
    Number,
    TooFew,
    TooMany,
    // the roster
    Parties,
    Party,
    Specialist,
    // an entry
    Holder,
    Size,
    Twice,
    Full,
    // the order
    Order,
    Directed,
}

impl Fault {
    // What to tell whoever typed the line.
    pub fn text(self) -> &'static str
        ensures { result.now ≡ text_of self }
    {
        match self {
            Fault::TooLong => "is longer than 200 bytes",
            Fault::Word => "begins with none of draw, customer, maker, firm, order",
            Fault::Number => "has a field that is no number (1 to 9 digits, no leading zero)",
            Fault::TooFew => "lacks a field",
            Fault::TooMany => "has a field too many",
            Fault::Parties => "draws more than 16 parties",
            Fault::Party => "draws a party twice, or one out of 1 to 65535",
            Fault::Specialist => "names a specialist that is not drawn",
            Fault::Holder => "has a number out of range (orders to 999999, parties to 65535)",
            Fault::Size => "has a size out of 1 to 99999",
            Fault::Twice => "names a holder that stands already",
            Fault::Full => "is one entry more than the 64 that a class may have",
            Fault::Order => "has an order's size out of 1 to 999999",
            Fault::Directed => "directs the order to a party out of 1 to 65535",
        }
    }
}

impl fmt::Display for Fault {
    ghost output = { λ fault. Some (text_of fault) };

    fn fmt<W: fmt::Write>(&self, f: &mut fmt::Formatter<W>) -> fmt::Result {
        f.write_str(self.text())
    }
}

impl Error for Fault {}

// What is wrong with a draw that is refused.
impl From<Refusal> for Fault {
    ghost from_gives = { λ why fault. fault ≡ fault_of why };

    fn from(why: Refusal) -> Fault {
        match why {
            Refusal::TooManyParties => Fault::Parties,
            Refusal::SpecialistNotDrawn => Fault::Specialist,
            _ => Fault::Party,
        }
    }
}
