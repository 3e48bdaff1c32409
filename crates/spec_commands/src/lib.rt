//! What is answered from the bytes of a spec file alone: how much the spec has, which rank an order has, the outcome of one permutation, and
//! what happens in it.
#![tactic(auto)]

mod counting;
mod ordering;
mod showing;
mod single;

pub use counting::{CountFault, check, count};
pub use ordering::{OrderFault, RankFault, order, rank};
pub use showing::{ShowFault, ShowForm, WantedOrder, order_json, sessions_of_steps, show};
pub use single::{OneFault, one, one_of, write_outcome};
