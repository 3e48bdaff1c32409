//! Events: what a session is told, one by one, in transcripts that are whole and in logs that are still being told.
#![tactic(auto)]

mod event;
mod log;
mod numbers;
mod parts;
mod same;
mod transcript;
mod turn;

pub use event::{Event, Fault, Warning};
pub use log::Log;
pub use numbers::{fault_number, warning_number};
pub use same::{are_same_values, is_same_value};
pub use transcript::Transcript;
