//! The law of jobs, the contract of a function that does nothing.

ghost use Rattle.book_jobs.specs.Laws.{SameLeavesMakeSameFacts};

/// Jobs that run the same shards make the same facts, in whatever tree, order and number.
pub fn leaves_decide()
    ensures { SameLeavesMakeSameFacts }
{}
