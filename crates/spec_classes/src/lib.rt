//! The orders of a spec in classes by what they show, each with the exact number of its orders and its first one; and what serial orders answer.
#![tactic(auto)]

mod answered;
mod classes;
mod drawing;
mod laws;
mod leading;
mod lines;
mod orders;
mod serial;
mod showing;
mod start;
mod tallies;
mod telling;

pub use classes::{OrderClass, classes_of, drawn_classes};
pub use drawing::drawn_ranks;
pub use laws::{counts_add_up, draws_are_even};
pub use serial::serial_answers;
