// The model of a sharing book: specs/ says what each call means, what a day is, and what its events tell by themselves. The code
// here only carries, in contracts, what these definitions come to on small days.
#![tactic(auto)]

mod refusing;
mod samples;
mod telling;

pub use refusing::refused_in_order;
pub use samples::{busy_day, sample_day};
pub use telling::wrong_answer;
