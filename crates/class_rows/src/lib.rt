//! Classes as they are told: letters, filters, answers and totals.
#![tactic(auto)]

mod anomaly;
mod asked;
mod classing;
mod found;
mod letters;
mod passing;
mod rows;
mod totals;

pub use asked::Asked;
pub use classing::classed;
pub use found::FoundOrders;
pub use rows::Classed;
