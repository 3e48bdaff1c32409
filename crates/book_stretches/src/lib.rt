//! What a book tells of each rank of its spec, by stretches of ranks. Ranks may be missing.
#![tactic(auto)]

mod classes;
mod error;
mod judging;
mod laws;
mod leading;
mod missing;
mod numbers;
mod source;
mod sweep;
mod telling;
mod told;

pub use error::TellError;
pub use laws::true_books_tell_the_machine;
pub use missing::{runs_to_run, untold_runs};
pub use source::spec_of_book;
pub use told::{ToldRanks, told_ranks};
