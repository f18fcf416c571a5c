// The classes of those who stand in a book.
ghost use Rattle.std.specs.Prelude.{◌≡◌};
ghost use Rattle.terms.specs.Classes.{class_of, class_number};

use crate::refusal::Refusal;

#[derive(Clone, Copy, PartialEq, Eq, Debug)]
pub enum Class {
    // public customers, whose orders come first
    Customers = 1,
    // market makers, who quote
    Makers = 2,
    // off-floor firms, whose orders come last
    Firms = 3,
}

impl Class {
    // The number by which the markets know the class.
    pub fn number(self) -> u32
        ensures { result ≡ class_number self }
    {
        self as u32
    }
}

impl TryFrom<u32> for Class {
    type Error = Refusal;

    ghost try_from_gives = { λ number r. r ≡ class_of number };

    fn try_from(number: u32) -> Result<Class, Refusal> {
        match number {
            1 => Ok(Class::Customers),
            2 => Ok(Class::Makers),
            3 => Ok(Class::Firms),
            _ => Err(Refusal::BadClass),
        }
    }
}
