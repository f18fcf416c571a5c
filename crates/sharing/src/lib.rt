// Sharing rules: how the contracts that arrive at one price are shared among the entries that stand there.
#![tactic(auto)]

mod asked;
mod by_size;
mod draw;
mod draw_rule;
mod drawing;
mod entitlement;
mod leftovers;
mod pro_rata;
mod roster;
mod rule;
#[cfg(test)]
mod tests;
mod time_order;
mod worked;

pub use asked::Asked;
pub use draw_rule::{DrawRule, DrawState};
pub use pro_rata::ProRata;
pub use roster::Roster;
pub use rule::SharingRule;
pub use time_order::TimeOrder;
pub use worked::worked_shares;
