// Serving one class at one price: its rule is asked, its shares are entered as fills, and its records are lowered.
#![tactic(auto)]

mod class;
mod fills;
mod gather;
mod stretch;

pub use class::{Served, serve};
pub use stretch::Portion;
