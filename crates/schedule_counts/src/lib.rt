//! The states in which the orders of a spec end, each with the exact number of its orders and the rank of its first one. No order is run by itself: each
//! world is explored once.
#![tactic(auto)]

mod counting;
mod laws;
mod machine;
mod place;
mod search;
mod watch;

pub use counting::{FinalState, FinalStates, StatesError, final_states};
pub use laws::sums_are_exact;
pub use watch::{Unwatched, Watch};
