// Lines of text: reading them one by one, their fields, and the numbers that fields spell.
#![tactic(auto)]

mod fields;
mod numeral;
mod reading;
mod scan;

pub use fields::{Fields, Part};
pub use numeral::number;
pub use reading::next_line;
