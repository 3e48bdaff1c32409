//! Orders in classes, from the bytes of a spec or the files of books to what is written.
#![tactic(auto)]

mod asking;
mod booking;
mod classing;
mod filters;
mod levels;
mod opened;
mod progress;
mod sampling;
mod telling;
mod written;

pub use booking::{BookClassesFault, book_classes};
pub use classing::{ClassesFault, classes, classes_told};
pub use levels::{both_levels, both_levels_told};
pub use opened::MAX_SHOWN;
pub use progress::Telling;
