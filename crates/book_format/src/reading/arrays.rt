//! The outcomes, the runs and the facts of a book, each read as it comes in a text: of the values no more than one is in memory.

ghost use Rattle.std.specs.Prelude.{◌≡◌, ◌+◌, ◌<◌, ◌≤◌, ℕ, IfSome, IsTrue, Ok, [], ◌∷◌, ◌++◌};
ghost use Rattle.std.specs.FinSet.{empty};
ghost use Rattle.serde_json.specs.View.{view};
ghost use Rattle.fact_books.specs.Building.{added};
ghost use Rattle.fact_books.specs.Entries.{Told};
ghost use Rattle.book_format.specs.Reading.{IsNextOutcome};
ghost use Rattle.book_format.specs.ReadingRuns.{AreEnds};
ghost use Rattle.book_format.specs.ReadingTokens.{AreFactsAt, AreOutcomesAt, AreRunsAt};

use super::facts::{RankFact, next_fact};
use super::outcomes::next_outcome;
use super::runs::{Ends, next_run};
use super::tokens::{begins_array, next_item};
use bound_specs::Spec;
use compact_outcomes::CompactOutcomes;
use fact_books::{Builder, Run};
use json::Reader;
use serde_json::Value as Json;
use std::alloc::Global;

/// The outcomes that the next value of a text is, an array of them in the order of their texts. None where it is no such
/// value, and for want of memory.
pub fn outcomes_at(alloc: Global, spec: &Spec, reader: &mut Reader<'_>) -> Option<CompactOutcomes>
    ensures { IfSome result (λ outcomes. AreOutcomesAt spec.now.run reader.old outcomes reader.new) }
{
    let mut outcomes = CompactOutcomes::new(alloc);
    if read_outcomes(alloc, spec, &mut outcomes, reader) {
        Some(outcomes)
    } else {
        None
    }
}

/// Reads outcomes to the end of their array.
fn read_outcomes(
    alloc: Global,
    spec: &Spec,
    outcomes: &mut CompactOutcomes,
    reader: &mut Reader<'_>,
) -> bool
    requires { outcomes.old ≡ [] }
    ensures { IsTrue result → AreOutcomesAt spec.now.run reader.old outcomes.new reader.new }
{
    if !begins_array(reader) {
        return false;
    }
    while let Some(next) = next_item(alloc, reader) {
        match next {
            None => return true,
            Some(value) => {
                if !takes_outcome(alloc, spec, outcomes, &value) {
                    return false;
                }
            }
        }
    }
    false
}

/// Puts the outcome that a value is behind the others, if it is the next one.
fn takes_outcome(alloc: Global, spec: &Spec, outcomes: &mut CompactOutcomes, value: &Json) -> bool
    ensures { IsTrue result → (o : Told) × IsNextOutcome spec.now.run outcomes.old (view value.now) (Ok o)
        × (outcomes.new ≡ outcomes.old ++ o ∷ []) }
{
    match next_outcome(alloc, spec, outcomes, value) {
        Ok(outcome) => outcomes.push(&outcome.as_outcome()).is_ok(),
        Err(_) => false,
    }
}

/// The runs that the next value of a text is, an array of them, of a spec and so many outcomes, each of which has to be named. There is
/// room for so many runs at once. None where it is no such value, and for want of memory.
pub fn runs_at(
    alloc: Global,
    spec: &Spec,
    outcomes: u32,
    room: usize,
    reader: &mut Reader<'_>,
) -> Option<Vec<Run>>
    ensures { IfSome result (λ runs. AreRunsAt spec.now.run outcomes reader.old runs.items reader.new) }
{
    let mut ends = Ends::new(alloc, outcomes as usize).ok()?;
    let mut runs = Vec::with_capacity(alloc, room).ok()?;
    if read_runs(alloc, spec, outcomes, &mut ends, &mut runs, reader) {
        Some(runs)
    } else {
        None
    }
}

/// Reads runs to the end of their array.
fn read_runs(
    alloc: Global,
    spec: &Spec,
    outcomes: u32,
    ends: &mut Ends,
    runs: &mut Vec<Run>,
    reader: &mut Reader<'_>,
) -> bool
    requires none { runs.old.items ≡ [] }
    requires ends { AreEnds outcomes ends.old [] }
    ensures { IsTrue result → AreRunsAt spec.now.run outcomes reader.old runs.new.items reader.new }
{
    if !begins_array(reader) {
        return false;
    }
    let mut facts = 0;
    while let Some(next) = next_item(alloc, reader) {
        match next {
            None => return ends.all_named(),
            Some(value) => {
                let run = match next_run(spec, outcomes, &value, facts, runs.as_slice(), ends) {
                    Ok(run) => run,
                    Err(_) => return false,
                };
                facts += run.end - run.first;
                ends.note(run);
                if !pushes(runs, run) {
                    return false;
                }
            }
        }
    }
    false
}

/// Puts a run behind the others, if there is memory.
fn pushes(runs: &mut Vec<Run>, run: Run) -> bool
    ensures { IsTrue result → runs.new.items ≡ runs.old.items ++ run ∷ [] }
{
    runs.push(run).is_ok()
}

/// The facts that the next value of a text is, an array of them, whose ranks rise. There is room for so many facts at once, of a text of so
/// many bytes. None where it is no such value, and for want of memory.
pub fn facts_at(
    alloc: Global,
    spec: &Spec,
    room: usize,
    bytes: usize,
    reader: &mut Reader<'_>,
) -> Option<Builder>
    ensures { IfSome result (λ builder. AreFactsAt spec.now.run reader.old builder.facts reader.new) }
{
    let mut builder = Builder::with_room(alloc, room, bytes).ok()?;
    if read_facts(alloc, spec, &mut builder, reader) {
        Some(builder)
    } else {
        None
    }
}

/// Reads facts to the end of their array.
fn read_facts(alloc: Global, spec: &Spec, builder: &mut Builder, reader: &mut Reader<'_>) -> bool
    requires none { builder.old.facts ≡ empty }
    requires first { builder.old.next ≡ 0 }
    ensures { IsTrue result → AreFactsAt spec.now.run reader.old builder.new.facts reader.new }
{
    if !begins_array(reader) {
        return false;
    }
    // The order of the next fact is told by the last one alone.
    let mut last = Vec::new(alloc);
    while let Some(next) = next_item(alloc, reader) {
        match next {
            None => return true,
            Some(value) => match next_fact(alloc, spec, last.as_slice(), &value) {
                Ok(fact) => {
                    if !adds(builder, &mut last, fact) {
                        return false;
                    }
                }
                Err(_) => return false,
            },
        }
    }
    false
}

/// Adds a fact, which is the last one then.
fn adds(builder: &mut Builder, last: &mut Vec<RankFact>, fact: RankFact) -> bool
    requires { builder.old.next ≤ fact.rank }
    ensures added { IsTrue result → builder.new ≡ added builder.old fact.rank (fact.rank + 1) fact.fact }
    ensures last { IsTrue result → last.new.items ≡ fact ∷ [] }
{
    let Some(end) = fact.rank.checked_add(1) else {
        return false;
    };
    if builder.push(fact.rank, end, &fact.fact).is_err() {
        return false;
    }
    last.clear();
    last.push(fact).is_ok()
}
