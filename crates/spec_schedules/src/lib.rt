//! Orders of a spec's steps: schedules, which clients can send, and permutations. What they are as definitions, how they are words of a graph of
//! worlds, and their laws, each the contract of a function that does nothing.
#![tactic(auto)]

mod kind;
mod laws;

pub use kind::Kind;
pub use laws::{
    each_order_has_a_rank, no_order_leads_back, orders_are_few, orders_are_words,
    permutations_are_ranked, ranks_are_unique, schedules_and_permutations,
};
