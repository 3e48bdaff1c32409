//! The book of a shard: the facts that a walk gives, gathered.
#![tactic(auto)]

mod shards;

pub use shards::{of_shard, of_walk};
