//! How sessions go: steps that are sent, waits that are granted and setups that are run, over any stage that has rows, locks and sessions.
#![tactic(auto)]

mod asking;
mod blocks;
mod error;
mod performing;
mod point;
mod sending;
mod setups;
mod stage;
mod stepping;

pub use asking::{Asked, is_unlocked_in};
pub use error::{SendError, StartError};
pub use performing::perform;
pub use point::{Origin, Point, Rest};
pub use sending::{resume, send, start_step};
pub use setups::{SetUp, run_setups};
pub use stage::Stage;
