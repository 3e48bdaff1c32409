//! What a check tells of a spec: how much it has, and what is read there and has no effect.
#![tactic(auto)]

mod checking;
mod idle;
mod markers;
mod teardowns;
mod telling;

pub use checking::{CheckFault, check};
