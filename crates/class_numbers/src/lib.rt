//! The laws of what classes tell of numbers of orders, and no code to run.
#![tactic(auto)]

mod laws;

pub use laws::{books_are_of_orders, expectations_are_of_orders, findings_are_of_orders};
