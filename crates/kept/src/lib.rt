// Ranked records, and the list that keeps them best first in memory that its caller lends.
#![tactic(auto)]

mod laws;
mod list;
mod orders;
mod quotes;
mod ranked;
mod standing;
mod tables;
#[cfg(test)]
mod tests;

pub use laws::insertion_law;
pub use list::KeptList;
pub use orders::Order;
pub use quotes::Quote;
pub use ranked::{Keyed, Ranked, better, clear};
pub use standing::Standing;
pub use tables::Tables;
