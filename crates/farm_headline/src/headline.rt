//! All that the farm promises, as the contract of one call: from the bytes of a spec to its report, over any shards, joins and workers.

ghost use Rattle.std.specs.Prelude.{◌≡◌, ◌<◌, None};
ghost use Rattle.transcripts.specs.Counted.{failures_of};
ghost use Rattle.fact_books.specs.Laws.{JoinsCommute, JoinsAssociate, JoinsRepeat};
ghost use Rattle.farm_headline.specs.Headline.{AreRunsReported};
ghost use Rattle.farm_headline.specs.Gathering.{AreRun, IsFarmed, IsNextRun, IsJoinedWith};

use book_commands::{ReportFault, write_report};
use book_jobs::{Job, make};
use bound_specs::Spec;
use fact_books::{Book, JoinError, join, joins_are_unions};
use session_machine::RunError;
use shard_farm::{FarmError, Gate, farm_run};
use spec_binding::{SpecFault, spec_of};
use std::alloc::Global;
use std::io::Write;
use std::sync::Wait;
use std::thread::Threads;
use step_reducer::Shard;
use transcripts::Counted;

/// Shards that workers run.
#[derive(Drop)]
pub struct Plan {
    /// The shards, of which each worker claims one after another.
    pub shards: Vec<Shard>,
    /// Whether a rank that a smaller one covers is noted as that, and not run.
    pub reduce: bool,
    /// How many workers there are, from 1 to 16.
    pub workers: u8,
}

/// Why runs are not reported. Each is tried before those below it, but for want of memory.
#[derive(Drop)]
pub enum HeadlineFault {
    /// The bytes are no spec file.
    Spec(SpecFault),
    /// The job is not made.
    Job(RunError),
    /// The plan at this place, from 0, is not run whole.
    Plan { place: usize, error: FarmError },
    /// Memory ran out for a join.
    NoMemory,
    /// The report is not written.
    Report(ReportFault),
}

/// Reads a spec, makes a job of it, has workers run some plans of it, joins all that comes of them and writes its report.
///
/// Whatever shards the job and the plans run, with whatever workers, repeats and overlaps, and in whatever tree the job joins them: the
/// book holds exactly the facts of the ranks that were run. Books may be joined in any order and grouping, and as often as one likes. Where
/// each rank was run, and the spec has no more ranks than a report may have, the report tells of each rank exactly what the sequential machine tells of
/// it, and the transactions that are committed there behave as when they are run one after another in the order of their commits.
pub fn report_of_runs<R: Threads + Wait + Sync, G: Gate + Sync, W: Write>(
    rt: &R,
    alloc: Global,
    bytes: &[u8],
    job: &Job,
    plans: &[Plan],
    gate: &G,
    out: &mut Counted<W>,
) -> Result<(), HeadlineFault>
    requires { failures_of out.old < u64.MAX }
    ensures reported { AreRunsReported W.contents out.old out.new bytes.now job.now plans.now result }
    ensures commute { JoinsCommute }
    ensures associate { JoinsAssociate }
    ensures repeat { JoinsRepeat }
{
    joins_are_unions();
    let spec = match spec_of(alloc, bytes) {
        Ok(spec) => spec,
        Err(fault) => return Err(HeadlineFault::Spec(fault)),
    };
    let book = match book_of_runs(rt, alloc, &spec, job, plans, gate) {
        Ok(book) => book,
        Err(fault) => return Err(fault),
    };
    book.known();
    match write_report(alloc, &book, out) {
        Ok(()) => Ok(()),
        Err(fault) => Err(HeadlineFault::Report(fault)),
    }
}

/// The facts of the job and of all plans, in one book. The job is refused first, then the first plan that is. Levels are not asked for.
pub fn book_of_runs<R: Threads + Wait + Sync, G: Gate + Sync>(
    rt: &R,
    alloc: Global,
    spec: &Spec,
    job: &Job,
    plans: &[Plan],
    gate: &G,
) -> Result<Book, HeadlineFault>
    requires unasked { spec.now.asked ≡ None }
    ensures { AreRun spec.now job.now plans.now result }
{
    let mut book = match make(alloc, spec, job) {
        Ok(book) => book,
        Err(error) => return Err(HeadlineFault::Job(error)),
    };
    for place in 0..plans.len() {
        book = with_plan(rt, alloc, spec, &plans[place], place, gate, &book)?;
    }
    Ok(book)
}

/// A book with the facts of a plan, which is at this place.
fn with_plan<R: Threads + Wait + Sync, G: Gate + Sync>(
    rt: &R,
    alloc: Global,
    spec: &Spec,
    plan: &Plan,
    place: usize,
    gate: &G,
    book: &Book,
) -> Result<Book, HeadlineFault>
    requires unasked { spec.now.asked ≡ None }
    requires of_spec { book.now.file ≡ spec.now }
    ensures { IsNextRun spec.now plan.now place book.now result }
{
    match farmed(rt, alloc, spec, plan, place, gate) {
        Ok(next) => joined(book, &next),
        Err(fault) => Err(fault),
    }
}

/// The facts of a plan, which is at this place.
pub(crate) fn farmed<R: Threads + Wait + Sync, G: Gate + Sync>(
    rt: &R,
    alloc: Global,
    spec: &Spec,
    plan: &Plan,
    place: usize,
    gate: &G,
) -> Result<Book, HeadlineFault>
    requires unasked { spec.now.asked ≡ None }
    ensures { IsFarmed spec.now plan.now place result }
{
    let farmed = farm_run(
        rt,
        alloc,
        spec,
        plan.shards.as_slice(),
        plan.reduce,
        plan.workers,
        gate,
    );
    match farmed {
        Ok(book) => Ok(book),
        Err(error) => Err(HeadlineFault::Plan { place, error }),
    }
}

/// The join of two books of one spec.
pub(crate) fn joined(book: &Book, next: &Book) -> Result<Book, HeadlineFault>
    requires { book.now.file ≡ next.now.file }
    ensures { IsJoinedWith book.now next.now result }
{
    match join(book, next) {
        Ok(all) => Ok(all),
        Err(JoinError::NoMemory) => Err(HeadlineFault::NoMemory),
        Err(JoinError::SpecMismatch) => unreachable!(),
    }
}
