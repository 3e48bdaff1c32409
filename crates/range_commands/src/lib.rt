//! Ranges of ranks, run by workers over the bytes of a spec file: the text of their book.
#![tactic(auto)]

mod ranges;

pub use ranges::{MAX_RANGE, RangeFault, book_of_range, run_all, run_range, run_told};
