//! The texts of a page of classes: all that is the same on each page.
#![tactic(auto)]

mod part;
mod texts;

pub use part::Part;
