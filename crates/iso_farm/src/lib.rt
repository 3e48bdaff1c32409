//! The door of the farm: workers that run the shards of a spec, and the gate that they call round each.
#![tactic(auto)]

pub use shard_farm::{FarmError, Gate, OpenGate, ShardNumbers, Unfinished, farm_run};
