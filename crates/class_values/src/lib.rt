//! The JSON of classes, for scripts and for the script of a page.
#![tactic(auto)]

mod classes;
mod expected;
mod label;
mod laws;
mod left;
mod rows;
mod sheet;
mod totals;

pub use classes::classes_json;
pub use laws::{classes_are_free, left_is_shown};
pub use sheet::Sheet;
