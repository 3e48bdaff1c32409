//! Outcomes: the transcripts of all sessions, their order, and their texts, as lines and as a JSON value.
#![tactic(auto)]

mod counted;
mod error;
mod fingerprinting;
mod lines;
mod names;
mod of_value;
mod order;
mod outcome;
mod printing;
mod same;
mod telling;
mod to_value;

pub use counted::{Counted, ReadError, ReadFault, WriteFault};
pub use error::ValueError;
pub use fingerprinting::{fingerprint, hash_values};
pub use lines::{write_count, write_number};
pub use names::Names;
pub use of_value::outcome_of_value;
pub use outcome::Outcome;
pub use printing::{print, print_rank};
pub use telling::say;
pub use to_value::outcome_value;
