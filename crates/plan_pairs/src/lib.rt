//! Which steps of a spec ask for modes that go together, as a table: for who would else compare their lock plans for each order.
#![tactic(auto)]

mod pairs;
mod requests;

pub use pairs::StepPairs;
