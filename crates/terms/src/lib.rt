// What every other crate speaks in: the limits, sides and classes of a book, its calls and their answers, the refusals with their
// numbers, and tests on rows of numbers.
#![tactic(auto)]

mod calls;
mod class;
mod limits;
mod numbers;
mod refusal;
mod side;

pub use calls::{Answer, Call};
pub use class::Class;
pub use limits::{
    MOST_CONTRACTS, MOST_ENTRIES, MOST_ORDER_NUMBER, MOST_ORDERS, MOST_PARTIES, MOST_PARTY,
    MOST_PRICE, MOST_QUOTES, MOST_TRADED,
};
pub use numbers::{all_within, distinct, listed, place, sum, within};
pub use refusal::Refusal;
pub use side::Side;
