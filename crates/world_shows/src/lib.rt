//! What a world of the machine shows.
#![tactic(auto)]

mod reading;

pub use reading::shows_of;
