//! How a caller uses the laws who has workers run plans by calls of his own and joins their books.

ghost use Rattle.std.specs.Prelude.{◌≡◌, ◌<◌, None};
ghost use Rattle.transcripts.specs.Counted.{failures_of};
ghost use Rattle.farm_headline.specs.TwoFarms.{AreFarmed, AreFarmsReported};

use crate::headline::{HeadlineFault, Plan, farmed, joined};
use crate::laws::{reports_are_the_machines, runs_are_true, runs_decide};
use book_commands::write_report;
use bound_specs::Spec;
use fact_books::Book;
use shard_farm::Gate;
use std::alloc::Global;
use std::io::Write;
use std::sync::Wait;
use std::thread::Threads;
use transcripts::Counted;

/// Has workers run two plans of a spec, joins the two books and writes the report. That it tells of each rank what the sequential machine tells follows
/// from the contracts of the calls by the laws alone. Levels are not asked for.
pub fn report_of_two_farms<R: Threads + Wait + Sync, G: Gate + Sync, W: Write>(
    rt: &R,
    alloc: Global,
    spec: &Spec,
    first: &Plan,
    second: &Plan,
    gate: &G,
    out: &mut Counted<W>,
) -> Result<(), HeadlineFault>
    requires unasked { spec.now.asked ≡ None }
    requires countable { failures_of out.old < u64.MAX }
    ensures { AreFarmsReported W.contents out.old out.new spec.now first.now second.now result }
{
    runs_are_true();
    reports_are_the_machines();
    let book = match book_of_two_farms(rt, alloc, spec, first, second, gate) {
        Ok(book) => book,
        Err(fault) => return Err(fault),
    };
    book.known();
    match write_report(alloc, &book, out) {
        Ok(()) => Ok(()),
        Err(fault) => Err(HeadlineFault::Report(fault)),
    }
}

/// The facts of both plans, in one book.
fn book_of_two_farms<R: Threads + Wait + Sync, G: Gate + Sync>(
    rt: &R,
    alloc: Global,
    spec: &Spec,
    first: &Plan,
    second: &Plan,
    gate: &G,
) -> Result<Book, HeadlineFault>
    requires unasked { spec.now.asked ≡ None }
    ensures { AreFarmed spec.now first.now second.now result }
{
    runs_decide();
    let one = match farmed(rt, alloc, spec, first, 0, gate) {
        Ok(book) => book,
        Err(fault) => return Err(fault),
    };
    let other = match farmed(rt, alloc, spec, second, 1, gate) {
        Ok(book) => book,
        Err(fault) => return Err(fault),
    };
    joined(&one, &other)
}
