//! The book of a range of ranks, from the bytes of a spec to the text of the book.

ghost use Rattle.std.specs.Prelude.{◌≡◌, ◌<◌, ◌≤◌, None, IfErr, IfOk, OnOk, MatchOption, false};
ghost use Rattle.spec_binding.specs.SpecFiles.{IsNoSpec};
ghost use Rattle.step_reducer.specs.Walking.{Starts};
ghost use Rattle.fact_books.specs.Building.{AreFactsOf};
ghost use Rattle.transcripts.specs.Counted.{failures_of};
ghost use Rattle.range_commands.specs.Ranges.{IsRangeOf, IsOutsideRange, IsNoRange, IsNumberOfRanks, IsRangeRun, IsRunOfAll, IsOfLawfulPlan, IsToldOf};

use book_format::{WriteError, write_book};
use bound_specs::Spec;
use fact_books::Book;
use range_progress::{Progress, shards_of};
use session_machine::RunError;
use shard_board::Workers;
use shard_farm::{FarmError, Gate, OpenGate, farm_run};
use spec_binding::{SpecFault, spec_of};
use std::alloc::Global;
use std::io::Write;
use std::sync::Wait;
use std::thread::Threads;
use std::time::Clock;
use transcripts::Counted;

/// The ranks of a range, at most: as many shards of 1,000 ranks as a plan may have.
pub const MAX_RANGE: u64 = 4_096_000;

/// Why the book of a range was not written. Each is tried before those below it, but for want of memory.
#[derive(Clone, Copy, PartialEq, Eq)]
pub enum RangeFault {
    /// The bytes are no spec file.
    Spec(SpecFault),
    /// The range is none of the spec, or too long, or the spec does not start, or memory ran out.
    Run(RunError),
    /// The book was not written.
    Write(WriteError),
}

/// Reads a spec, and writes the book of the ranks from the first up to but not the end. So many workers run them, of which each claims shards
/// of 1,000 ranks from one supply. They call the gate round each of these.
pub fn run_range<R: Threads + Wait + Sync, G: Gate + Sync, W: Write>(
    rt: &R,
    alloc: Global,
    bytes: &[u8],
    first: u64,
    end: u64,
    reduce: bool,
    workers: &Workers,
    gate: &G,
    out: &mut Counted<W>,
) -> Result<(), RangeFault>
    requires { failures_of out.old < u64.MAX }
    ensures { IsRangeRun W.contents out.old out.new bytes.now first end reduce result }
{
    let spec = match spec_of(alloc, bytes) {
        Ok(spec) => spec,
        Err(fault) => return Err(RangeFault::Spec(fault)),
    };
    let book = match book_of_range(rt, alloc, &spec, first, end, reduce, workers, gate) {
        Ok(book) => book,
        Err(error) => return Err(RangeFault::Run(error)),
    };
    match write_book(alloc, &book, out) {
        Ok(()) => Ok(()),
        Err(error) => Err(RangeFault::Write(error)),
    }
}

/// Does as `run_range`, and tells on `err` how far it is where that is wanted. What is not written there is no fault.
pub fn run_told<R: Threads + Wait + Clock + Sync, W: Write, E: Write + Send>(
    rt: &R,
    alloc: Global,
    bytes: &[u8],
    first: u64,
    end: u64,
    reduce: bool,
    workers: &Workers,
    is_told: bool,
    out: &mut Counted<W>,
    err: &mut Counted<E>,
) -> Result<(), RangeFault>
    requires { failures_of out.old < u64.MAX }
    ensures run { IsRangeRun W.contents out.old out.new bytes.now first end reduce result }
    ensures quiet { is_told ≡ false → err.new ≡ err.old }
{
    if !is_told {
        return run_range(
            rt, alloc, bytes, first, end, reduce, workers, &OpenGate, out,
        );
    }
    let progress = Progress::new(rt, alloc, end.saturating_sub(first), err);
    let result = run_range(
        rt, alloc, bytes, first, end, reduce, workers, &progress, out,
    );
    progress.close(result.is_ok());
    result
}

/// Does as `run_told` for all ranks of the spec: the range from 0 up to their number, which is refused where it is too long.
pub fn run_all<R: Threads + Wait + Clock + Sync, W: Write, E: Write + Send>(
    rt: &R,
    alloc: Global,
    bytes: &[u8],
    reduce: bool,
    workers: &Workers,
    is_told: bool,
    out: &mut Counted<W>,
    err: &mut Counted<E>,
) -> Result<(), RangeFault>
    requires { failures_of out.old < u64.MAX }
    ensures run { IsRunOfAll W.contents out.old out.new bytes.now reduce result }
    ensures quiet { is_told ≡ false → err.new ≡ err.old }
{
    let end = match number_of_ranks(alloc, bytes) {
        Ok(end) => end,
        Err(fault) => return Err(RangeFault::Spec(fault)),
    };
    run_told(rt, alloc, bytes, 0, end, reduce, workers, is_told, out, err)
}

fn number_of_ranks(alloc: Global, bytes: &[u8]) -> Result<u64, SpecFault>
    ensures number { IfOk result (IsNumberOfRanks bytes.now) }
    ensures refused { IfErr result (IsNoSpec bytes.now) }
{
    match spec_of(alloc, bytes) {
        Ok(spec) => Ok(spec.ranks()),
        Err(fault) => Err(fault),
    }
}

/// The facts of the ranks from the first up to but not the end: when reducing the least swap where the rank has one, and else the outcome.
/// Levels are not asked for.
pub fn book_of_range<R: Threads + Wait + Sync, G: Gate + Sync>(
    rt: &R,
    alloc: Global,
    spec: &Spec,
    first: u64,
    end: u64,
    reduce: bool,
    workers: &Workers,
    gate: &G,
) -> Result<Book, RunError>
    requires unasked { spec.now.asked ≡ None }
    ensures refused { IfErr result (IsNoRange spec.now.run first end) }
    ensures lawful { OnOk result (IsRangeOf spec.now.run first end) }
    ensures started { OnOk result (Starts spec.now.run) }
    ensures of_spec { IfOk result (λ book. book.file ≡ spec.now) }
    ensures facts { IfOk result (λ book. AreFactsOf reduce spec.now.run first end book.facts) }
{
    if let Some(error) = outside(spec, first, end) {
        return Err(error);
    }
    let shards = shards_of(alloc, first, end)?;
    match farm_run(
        rt,
        alloc,
        spec,
        shards.as_slice(),
        reduce,
        workers.number(),
        gate,
    ) {
        Ok(book) => Ok(book),
        Err(error) => Err(not_run(error)),
    }
}

/// Why a range is not run, whose shards are a lawful plan.
fn not_run(error: FarmError) -> RunError
    requires { IsOfLawfulPlan error }
    ensures { IsToldOf error result }
{
    match error {
        FarmError::BadPlan => unreachable!(),
        FarmError::Start(error) => RunError::Start(error),
        FarmError::NotStarted | FarmError::NoMemory(_) => RunError::NoMemory,
    }
}

/// Why this is no range of the spec.
fn outside(spec: &Spec, first: u64, end: u64) -> Option<RunError>
    ensures { MatchOption result (IsRangeOf spec.now.run first end) (IsOutsideRange spec.now.run first end) }
{
    if first > end {
        return Some(RunError::OutOfRange);
    }
    if end > spec.ranks() {
        return Some(RunError::OutOfRange);
    }
    if end - first > MAX_RANGE {
        return Some(RunError::TooLong);
    }
    None
}
