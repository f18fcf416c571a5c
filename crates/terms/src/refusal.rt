// Refusals: every reason to turn a call away, and the number that it goes by.
ghost use Rattle.std.specs.Prelude.{◌≡◌};
ghost use Rattle.terms.specs.Refusals.{number_of};

#[derive(Clone, Copy, PartialEq, Eq, Debug)]
pub enum Refusal {
    // a roster of more than 16 parties
    TooManyParties = 3,
    // a party out of 1 to 65,535, or drawn twice
    BadParty = 4,
    // a specialist that is neither 0 nor drawn
    SpecialistNotDrawn = 5,
    // a class that the call does not know
    BadClass = 7,
    // a block of the wrong length: it has 130 numbers, or 34 for makers
    WrongLength = 16,
    // a row of numbers that is not a written block
    NotWritten = 17,
}

impl Refusal {
    // The number by which the markets know this refusal.
    pub fn number(self) -> u32
        ensures { result ≡ number_of self }
    {
        self as u32
    }
}
