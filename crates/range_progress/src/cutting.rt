//! Ranges of ranks cut into the shards that workers claim.

ghost use Rattle.std.specs.Prelude.{◌<◌, ◌≤◌, IfOk};
ghost use Rattle.range_progress.specs.Cutting.{AreCut, IsCutAt};

use rank_facts::Shard;
use std::alloc::{AllocError, Global};

/// How many ranks a shard has that a worker claims, at most.
pub const SHARD_RANKS: u64 = 1_000;

/// The shards of a range in order. Each has as many ranks as one may have, but for the last.
pub fn shards_of(alloc: Global, first: u64, end: u64) -> Result<Vec<Shard>, AllocError>
    requires { first ≤ end }
    ensures { IfOk result (λ shards. AreCut first end end shards.items) }
{
    let mut shards = Vec::new(alloc);
    let mut at = first;
    while at < end {
        let next = shard_end(at, end);
        shards.push(Shard {
            first: at,
            end: next,
        })?;
        at = next;
    }
    Ok(shards)
}

/// The end of the shard that begins here.
fn shard_end(at: u64, end: u64) -> u64
    requires { at < end }
    ensures { IsCutAt at end result }
{
    if end - at > SHARD_RANKS {
        return at + SHARD_RANKS;
    }
    end
}
