//! The book of a file: its bytes, the spec that its text names, and what it says of that spec.
#![tactic(auto)]

mod cursor;
mod guess;
mod outcomes;
mod parts;
mod pieces;
mod reading;
mod rows;
mod spec_of_text;
mod written;

pub use reading::read_book;
