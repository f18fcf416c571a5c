// A Trade: an incoming order against the three tables of a book, price by price.
#![tactic(auto)]

mod compaction;
mod incoming;
mod level;
mod market;
mod prices;
mod reached;
mod sweep;
mod tables;
mod trading;

pub use incoming::Incoming;
pub use trading::trade;
