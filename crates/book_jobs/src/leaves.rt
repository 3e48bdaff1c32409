//! The shards that a job runs, from left to right.

ghost use Rattle.std.specs.Prelude.{◌≡◌, ◌<◌, ◌≤◌, IfOk, MatchOption};
ghost use Rattle.book_jobs.specs.declared.job.TheConstants.{MAX_LEVELS};
ghost use Rattle.book_jobs.specs.JobTrees.{leaves, levels};

use crate::job::{Job, MAX_LEVELS};
use rank_facts::Shard;
use std::alloc::{AllocError, Global};

/// A shard to be run, and whether it is reduced.
#[derive(Clone, Copy, Drop)]
pub(crate) struct Leaf {
    pub(crate) shard: Shard,
    pub(crate) reduce: bool,
}

/// A part of a job that has not been looked at, and on which level it stands, from 1 on.
#[derive(Clone, Copy, Drop)]
pub(crate) struct Pending<'a> {
    pub(crate) job: &'a Job,
    pub(crate) level: u64,
}

/// The shards that a job runs, from left to right. None where it has too many levels.
pub(crate) fn leaves_of(alloc: Global, job: &Job) -> Result<Option<Vec<Leaf>>, AllocError>
    ensures { IfOk result (λ found. MatchOption found (MAX_LEVELS < levels job.now) (λ list. (list.items ≡ leaves job.now) × (levels job.now ≤ MAX_LEVELS))) }
{
    let mut list = Vec::new(alloc);
    let mut rest = Vec::new(alloc);
    rest.push(Pending { job, level: 1 })?;
    while let Some(pending) = rest.pop() {
        if pending.level > MAX_LEVELS {
            return Ok(None);
        }
        let level = pending.level + 1;
        match pending.job {
            Job::Run(shard, reduce) => list.push(Leaf {
                shard: *shard,
                reduce: *reduce,
            })?,
            Job::Join(a, b) => {
                rest.push(Pending {
                    job: b.get(),
                    level,
                })?;
                rest.push(Pending {
                    job: a.get(),
                    level,
                })?;
            }
        }
    }
    Ok(Some(list))
}
