//! Ranges of ranks cut into the shards that workers claim, and how far a run of them is.
#![tactic(auto)]

mod cutting;
mod headway;
mod progress;

pub use cutting::{SHARD_RANKS, shards_of};
pub use progress::{Pace, Progress};
