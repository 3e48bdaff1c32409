//! Jobs.

ghost use Rattle.std.specs.Prelude.{◌≡◌, ◌<◌};
ghost use Rattle.book_jobs.specs.JobTrees.{join_of, weight, AreParts};

use crate::boxed::Boxed;
use rank_facts::Shard;

/// The levels of a job, at most: a shard that is run has one, and a join one more than its deeper part.
pub const MAX_LEVELS: u64 = 1_000;

/// What is run and joined: the ranks of a shard, reduced or not, or what two jobs give together.
pub enum Job {
    Run(Shard, bool),
    Join(Boxed<Job>, Boxed<Job>),
}

/// A job that is taken apart.
enum Parts {
    Shard,
    Both(Boxed<Job>, Boxed<Job>),
}

impl Job {
    fn parts(self) -> Parts
        ensures { AreParts self result }
    {
        match self {
            Job::Run(_, _) => Parts::Shard,
            Job::Join(left, right) => Parts::Both(left, right),
        }
    }
}

impl Drop for Job {
    // A derived drop would go as deep as the job. This one turns the tree until its left part is a shard, in the boxes that are there.
    #[cycle(letting_go)]
    fn drop(mut self) {
        loop {
            match self {
                Job::Run(_, _) => return,
                Job::Join(left, right) => self = less(left, right),
            }
        }
    }
}

/// What is left of a join: its right part where the left one is a shard, and else a join of the same shards with a smaller left part.
#[cycle(letting_go)]
fn less(mut left: Boxed<Job>, right: Boxed<Job>) -> Job
    ensures { weight result < weight (join_of left right) }
{
    let none = Shard { first: 0, end: 0 };
    match left.replace(Job::Run(none, false)).parts() {
        Parts::Shard => {
            let _shard = left.into_inner();
            right.into_inner()
        }
        Parts::Both(first, rest) => {
            let _shard = left.replace(Job::Join(rest, right));
            Job::Join(first, left)
        }
    }
}
