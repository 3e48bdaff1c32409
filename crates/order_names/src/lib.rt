//! Orders by the names of their steps: which rank an order has, what is wrong with one that has none, and how a spec file writes it.
#![tactic(auto)]

mod error;
mod lines;
mod naming;
mod spelling;
mod words;

pub use error::OrderError;
pub use naming::rank_of;
pub use spelling::{order_text, push_name};
