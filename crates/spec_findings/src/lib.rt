//! All that is wrong with a spec file, as people read it: its first fault, and those beyond that.
//!
//! Behind a fault it goes on where the next statement begins, and each statement is then read and bound by itself.
#![tactic(auto)]

mod faults;
mod pieces;
mod sentences;
mod told;

pub use told::explained_faults;

/// The faults of a file that are told, at most.
pub const MAX_FAULTS: usize = 20;
