//! What the words of a command line ask for.
#![tactic(auto)]

mod arguments;
mod commands;
mod inputs;
mod matches;
mod names;
mod paths;
mod plain;
mod ranks;
mod renamed;
mod wanted;
mod words;

pub use paths::Paths;
pub use ranks::WantedRanks;
pub use wanted::Wanted;
pub use words::{Asked, parse_words};
