//! Why a plan is not run whole.

use crate::numbers::ShardNumbers;
use fact_books::Book;
use session_machine::StartError;
use std::fmt;

/// What was delivered of a plan, and the numbers of the shards that were not, in rising order.
#[derive(Drop)]
pub struct Unfinished {
    pub book: Book,
    pub missing: ShardNumbers,
}

/// Why a plan is not run whole. Each refusal is tried before those below it.
#[derive(Drop)]
pub enum FarmError {
    /// A shard is none of the spec, there are over 4,096 shards, or the workers are not 1 to 16.
    BadPlan,
    /// The spec does not start. Want of memory in a start is `NotStarted`.
    Start(StartError),
    /// Memory ran out before the first shard.
    NotStarted,
    /// Memory ran out while shards were run. The other shards were run all the same.
    NoMemory(Unfinished),
}

impl fmt::Display for FarmError {
    fn fmt<W: fmt::Write>(&self, f: &mut fmt::Formatter<W>) -> fmt::Result {
        match self {
            FarmError::BadPlan => f.write_str("the plan is not lawful"),
            FarmError::Start(error) => write!(f, "{error}"),
            FarmError::NotStarted => f.write_str("no memory before the first shard"),
            FarmError::NoMemory(_) => f.write_str("no memory for every shard"),
        }
    }
}
