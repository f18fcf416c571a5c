// The calls of an open book and what they answer, with their numbers as they were sent, so that each is refused by its own number.

// A Trade is given its three blocks beside the call.
#[derive(Clone, Copy, PartialEq, Eq, Debug)]
pub enum Call {
    Enter {
        class: u32,
        number: u32,
        price: u32,
        size: u32,
    },
    Reduce {
        class: u32,
        number: u32,
        reduction: u32,
    },
    Withdraw {
        class: u32,
        number: u32,
    },
    Quote {
        party: u32,
        price: u32,
        size: u32,
    },
    Trade {
        limit: u32,
        size: u32,
        directed: u32,
    },
    Tally {
        class: u32,
    },
}

// What a carried-out call answers: contracts, or of a Trade those that it filled and those that are left.
#[derive(Clone, Copy, PartialEq, Eq, Debug)]
pub enum Answer {
    Contracts(u32),
    Traded { filled: u32, left: u32 },
}
