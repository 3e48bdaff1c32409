//! What books tell of the orders of their spec, in classes.
#![tactic(auto)]

mod classed;
mod rows;
mod totals;

pub use classed::{BookClasses, classes_of};
