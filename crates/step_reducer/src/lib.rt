//! Which neighbouring steps may be exchanged, and the facts of a spec's ranks in runs.
#![tactic(auto)]

mod error;
mod fact;
mod frame;
mod laws;
mod line_walk;
mod pairs;
mod said;
mod shard_walk;
mod stack;
mod start;
mod step_table;
mod walk;
mod walker;
mod word_walk;
mod worlds;

pub use error::WalkError;
pub use fact::FactRun;
pub use laws::swaps_cover_blocks;
pub use pairs::quiet;
pub use rank_facts::{Fact, MAX_RANKS, Shard};
pub use said::{Said, SaidRun};
pub use shard_walk::ShardWalk;
pub use walker::{Walker, run_shard};
