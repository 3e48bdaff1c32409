//! Who holds which lock mode, who waits for one, and whose wait would close a ring, by the numbers of resources and with marks to go back to: for
//! who would else copy a lock table before each step.
#![tactic(auto)]

mod leaving;
mod locks;
mod picture;
mod queue;
mod ring;
mod wait;

pub use locks::MarkedLocks;
pub use picture::LocksPicture;
