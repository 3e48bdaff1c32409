//! Rows with undo: committed rows, and over them what each session has written.
#![tactic(auto)]

mod left;
mod measure;
mod place;
mod rows;
mod store;
mod undo;

pub use measure::{print_row, row_bytes};
pub use store::Store;
