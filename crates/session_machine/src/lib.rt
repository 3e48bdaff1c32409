//! The sequential machine: sessions send steps over committed rows, wait for locks and go on when they are had.
#![tactic(auto)]

mod asking;
mod error;
mod leaving;
mod member;
mod moments;
mod runs;
mod showing;
mod stage;
mod stale;
mod telling;
mod trace;
mod world;

pub use error::RunError;
pub use runs::{not_started, run_one};
pub use session_steps::{SendError, StartError};
pub use showing::show_line;
pub use world::World;
