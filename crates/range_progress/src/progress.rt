//! What a run tells while it goes on.

ghost use Rattle.std.specs.Prelude.{◌≡◌, ◌+◌, ◌≤◌, true, false};
ghost use Rattle.std.specs.Duration.{as_nanos};
ghost use Rattle.range_progress.specs.Progress.{ranks_of_shard};
ghost use Rattle.range_progress.specs.declared.progress.TheConstants.{GAP_NANOS};

use crate::cutting::SHARD_RANKS;
use crate::headway::Headway;
use shard_board::Gate;
use std::alloc::{AllocError, Global};
use std::io::Write;
use std::sync::Mutex;
use std::sync::atomic::{AtomicU64, Ordering};
use std::time::{Clock, Duration, Instant};
use transcripts::{Counted, say};

// An eighth of a second, so that no second has more than ten lines, the last one of a run among them.
const GAP_NANOS: u64 = 125_000_000;

/// When a line was told last, from the run's beginning on.
#[derive(Clone, Copy)]
pub struct Pace {
    told: Duration,
}

impl Pace {
    /// No line was told, and the run begins.
    pub fn new() -> Pace {
        Pace {
            told: Duration::ZERO,
        }
    }

    /// Whether a line may be told by now. If so, it is taken as told.
    pub fn take(&mut self, now: Duration) -> bool
        ensures due { result ≡ true → (as_nanos self.old.told + GAP_NANOS ≤ as_nanos now) × (self.new.told ≡ now) }
        ensures early { result ≡ false → self.new ≡ self.old }
    {
        if now.saturating_sub(self.told) < Duration::from_nanos(GAP_NANOS) {
            return false;
        }
        self.told = now;
        true
    }
}

/// Where lines are told, and when the last one was.
#[derive(Drop)]
struct Teller<'a, E> {
    err: &'a mut Counted<E>,
    pace: Pace,
}

/// A gate that tells how many shards and ranks of a run are done and how long that took, on a line now and then. Who finds another worker at
/// that leaves the line out, so that no worker waits for another one. Where the clock cannot be read, or there is no memory for a line, the line
/// is left out too, and a fault of the writer is told nowhere.
#[derive(Drop)]
pub struct Progress<'a, C, E> {
    clock: &'a C,
    alloc: Global,
    began: Option<Instant>,
    ranks: u64,
    done: AtomicU64,
    teller: Mutex<Teller<'a, E>>,
}

impl<'a, C: Clock, E: Write> Progress<'a, C, E> {
    /// A gate for a run of so many ranks, of which none is done.
    pub fn new(clock: &'a C, alloc: Global, ranks: u64, err: &'a mut Counted<E>) -> Self {
        let pace = Pace::new();
        Progress {
            clock,
            alloc,
            began: Instant::now(clock).ok(),
            ranks,
            done: AtomicU64::new(0),
            teller: Mutex::new(Teller { err, pace }),
        }
    }

    /// Tells how far a run came that is over. One that ended before its first shard was done has only its fault.
    pub fn close(self, is_good: bool) {
        if !is_good && self.done.load(Ordering::SeqCst) == 0 {
            return;
        }
        let Some(elapsed) = self.elapsed() else {
            return;
        };
        if let Ok(line) = self.line(elapsed) {
            say(line.as_str(), self.teller.into_inner().err);
        }
    }

    /// How long it is since the run began.
    fn elapsed(&self) -> Option<Duration> {
        let now = Instant::now(self.clock).ok()?;
        Some(now.duration_since(self.began?))
    }

    /// The line that tells what is done by now.
    fn line(&self, elapsed: Duration) -> Result<String, AllocError> {
        Headway::of(self.done.load(Ordering::SeqCst), self.ranks, elapsed).line(self.alloc)
    }
}

impl<C: Clock, E: Write> Gate for Progress<'_, C, E> {
    fn before(&self, _worker: u8, _shard: u32) {}

    fn after(&self, _worker: u8, shard: u32) {
        self.done
            .fetch_add(shard_ranks(self.ranks, shard), Ordering::SeqCst);
        let Some(mut teller) = self.teller.try_lock() else {
            return;
        };
        // What is done and the time are read under the lock, so that no line goes back behind the one before.
        let Some(elapsed) = self.elapsed() else {
            return;
        };
        if !teller.pace.take(elapsed) {
            return;
        }
        if let Ok(line) = self.line(elapsed) {
            say(line.as_str(), teller.err);
        }
    }
}

/// How many ranks the shard of this number has, of so many ranks in all.
fn shard_ranks(all: u64, shard: u32) -> u64
    ensures { result ≡ ranks_of_shard all shard }
{
    let before = u64::from(shard) * SHARD_RANKS;
    SHARD_RANKS.min(all.saturating_sub(before))
}
