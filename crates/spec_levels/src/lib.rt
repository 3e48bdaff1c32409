//! The isolation levels of a spec: which one is asked for, by a word or by a line of its file; the spec at that level; and where its file says another one.
#![tactic(auto)]

mod asking;
mod levels;
mod spec;
mod words;

pub use asking::{LevelFault, LevelFaultKind};
pub use levels::{Levels, levels_of};
pub use spec::{LevelledFault, levelled_spec};
pub use words::level_named;
