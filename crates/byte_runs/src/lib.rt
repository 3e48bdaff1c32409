//! Runs of bytes of one class, at the front of a text, and the tokens that a text is cut into.
#![tactic(auto)]

mod cutting;
mod pieces;
mod runs;

pub use cutting::{Cut, tokens_of};
pub use pieces::{Piece, Placed};
pub use runs::{Class, after_first, run_len, run_of};
