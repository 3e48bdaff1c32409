//! Workers that run the shards of one spec over one board.
#![tactic(auto)]

mod closing;
mod crew;
mod error;
mod farm;
mod numbers;
mod plan;
mod reserving;
mod worker;

pub use error::{FarmError, Unfinished};
pub use farm::farm_run;
pub use numbers::ShardNumbers;
pub use shard_board::{Gate, OpenGate};
