//! How far a run is.

ghost use Rattle.std.specs.Prelude.{◌≡◌, ◌/◌, ◌%◌, IfOk, string_bytes};
ghost use Rattle.std.specs.Duration.{as_nanos};
ghost use Rattle.range_progress.specs.Progress.{shards_of, headway_text, progress_line};

use crate::cutting::SHARD_RANKS;
use std::alloc::{AllocError, Global};
use std::time::Duration;

/// How far a run is, by its shards, by its ranks and by the time that it took.
#[derive(Clone, Copy)]
pub(crate) struct Headway {
    pub(crate) shards: u64,
    pub(crate) all_shards: u64,
    pub(crate) ranks: u64,
    pub(crate) all_ranks: u64,
    pub(crate) seconds: u64,
    pub(crate) tenth: u32,
}

impl Headway {
    /// Where a run is that has done so many ranks of so many.
    pub(crate) fn of(ranks: u64, all_ranks: u64, elapsed: Duration) -> Headway
        ensures shards { (result.shards ≡ shards_of ranks) × (result.all_shards ≡ shards_of all_ranks) }
        ensures ranks { (result.ranks ≡ ranks) × (result.all_ranks ≡ all_ranks) }
        ensures time { (result.seconds ≡ as_nanos elapsed / 1_000_000_000) × (result.tenth ≡ as_nanos elapsed % 1_000_000_000 / 100_000_000) }
    {
        Headway {
            shards: shards_in(ranks),
            all_shards: shards_in(all_ranks),
            ranks,
            all_ranks,
            seconds: elapsed.as_secs(),
            tenth: elapsed.subsec_nanos() / 100_000_000,
        }
    }

    /// The line that tells it.
    pub(crate) fn line(&self, alloc: Global) -> Result<String, AllocError>
        ensures { IfOk result (λ line. string_bytes line ≡ progress_line self.now) }
    {
        let text = self.text(alloc)?;
        format!(in alloc;
            "isofarm: {text}, {}.{} seconds\n",
            self.seconds, self.tenth
        )
    }

    /// How many shards and ranks of how many it has.
    fn text(&self, alloc: Global) -> Result<String, AllocError>
        ensures { IfOk result (λ text. string_bytes text ≡ headway_text self.now) }
    {
        format!(in alloc;
            "{} of {} shards, {} of {} ranks",
            self.shards, self.all_shards, self.ranks, self.all_ranks
        )
    }
}

/// How many shards so many ranks are.
fn shards_in(ranks: u64) -> u64
    ensures { result ≡ shards_of ranks }
{
    ranks.div_ceil(SHARD_RANKS)
}
