// The block format: rows of numbers that show who was filled in a trade, written one fill at a time and read again.
#![tactic(auto)]

mod fill;
mod laws;
mod layout;
mod reading;
#[cfg(test)]
mod tests;
mod writing;

pub use fill::Fill;
pub use laws::block_laws;
pub use layout::{Layout, MAKER_BLOCK, ORDER_BLOCK};
pub use reading::{Written, read};
pub use writing::{add, add_unchecked, blank, clear};
