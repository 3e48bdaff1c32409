//! Whether runs that are read already stand as those of a file do.

ghost use Rattle.std.specs.Prelude.{◌≤◌, IfOk, IsTrue, Ok, map};
ghost use Rattle.serde_json.specs.View.{items_of};
ghost use Rattle.book_format.specs.declared.pieces.TheConstants.{MAX_FACTS};
ghost use Rattle.book_format.specs.BookText.{run_data};
ghost use Rattle.book_format.specs.ReadingRuns.{AreEnds, AreRunsOf, IsNextRun, IsTagOf};

use super::runs::{Ends, is_led, is_past};
use crate::pieces::MAX_FACTS;
use bound_specs::Spec;
use fact_books::{Run, Tag};
use std::alloc::{AllocError, Global};

/// Whether the values of these runs are read as these, of a spec and so many outcomes.
pub(crate) fn are_runs(
    alloc: Global,
    spec: &Spec,
    outcomes: u32,
    runs: &[Run],
) -> Result<bool, AllocError>
    ensures { IfOk result (λ are. IsTrue are → AreRunsOf spec.now.run outcomes (items_of (map run_data runs.now)) (Ok runs.now)) }
{
    let mut ends = Ends::new(alloc, outcomes as usize)?;
    let mut facts = 0;
    for i in 0..runs.len() {
        let run = runs[i];
        if !is_next_run(spec, outcomes, &run, facts, &runs[..i], &ends) {
            return Ok(false);
        }
        facts += run.end - run.first;
        ends.note(run);
    }
    Ok(ends.all_named())
}

/// Whether the value of a run is read as this one, behind others that have so many facts.
fn is_next_run(
    spec: &Spec,
    outcomes: u32,
    run: &Run,
    facts: u64,
    before: &[Run],
    ends: &Ends,
) -> bool
    requires few { facts ≤ MAX_FACTS }
    requires ends { AreEnds outcomes ends.now before.now }
    ensures { IsTrue result → IsNextRun spec.now.run outcomes before.now facts (run_data run.now) (Ok run.now) }
{
    if !is_tag_of(outcomes, run.tag) || run.first >= run.end {
        return false;
    }
    if run.end - run.first > MAX_FACTS - facts || run.end > spec.ranks() {
        return false;
    }
    is_led(spec, run) && is_past(outcomes, before, ends, run)
}

/// Whether a tag names one of so many outcomes, if it names one.
fn is_tag_of(outcomes: u32, tag: Tag) -> bool
    ensures { IsTrue result → IsTagOf outcomes tag }
{
    match tag {
        Tag::Ran(number) => number < outcomes,
        Tag::Swap(_) => true,
    }
}
