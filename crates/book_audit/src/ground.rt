//! Whether facts of a spec are true, whether it starts or not.

ghost use Rattle.std.specs.Prelude.{◌≡◌, ◌<◌, [], length, slice_index_or, IfOk, OnOk};
ghost use Rattle.rank_facts.specs.declared.fact.Fact.TheVariants as fact;
ghost use Rattle.fact_books.specs.Runs.{IsNumbered, Table, fact_in};
ghost use Rattle.known_worlds.specs.Paths.{IsPath};
ghost use Rattle.book_audit.specs.Compared.{AreCompared};
ghost use Rattle.book_audit.specs.Grounds.{IsGround, IsTrueUntil};
ghost use Rattle.book_audit.specs.Findings.{IsFirstFalse};

use crate::comparing::Comparisons;
use crate::testing::{is_ran, swap_until};
use bound_specs::Spec;
use compact_outcomes::CompactOutcomes;
use fact_books::{Run, Tag};
use known_worlds::MarkedPath;
use session_steps::StartError;
use std::alloc::{AllocError, Global};

/// A path of a spec, with what the outcomes that were told on it were compared with.
#[derive(Drop)]
pub(crate) struct Tester<'a> {
    pub(crate) path: MarkedPath<'a>,
    pub(crate) comparisons: Comparisons,
}

/// What facts of a spec are tested on.
pub(crate) enum Ground<'a> {
    Started(Tester<'a>),
    /// The spec does not start: nothing is true.
    Refused,
}

// Written out and not derived, so that who owns one calls this and does not let its parts go one by one.
impl Drop for Ground<'_> {
    fn drop(self) {
        match self {
            Ground::Started(_tester) => {}
            Ground::Refused => {}
        }
    }
}

impl<'a> Ground<'a> {
    pub(crate) fn of(alloc: Global, spec: &'a Spec) -> Result<Ground<'a>, AllocError>
        ensures { IfOk result (λ made. (table : Table) → IsGround spec.now table made) }
    {
        match MarkedPath::start(alloc, spec) {
            Ok(path) => Ok(Ground::Started(Tester {
                path,
                comparisons: Comparisons::new(alloc),
            })),
            Err(StartError::NoMemory) => Err(AllocError),
            Err(
                StartError::SetupFailed { .. }
                | StartError::SessionSetupFailed { .. }
                | StartError::SessionSetupWaits { .. },
            ) => Ok(Ground::Refused),
        }
    }

    /// The least rank from a run's first one up to but not `end`, at which what the run says is not true.
    pub(crate) fn first_false(
        &mut self,
        spec: &Spec,
        outcomes: &CompactOutcomes,
        run: Run,
        end: u64,
    ) -> Result<Option<u64>, AllocError>
        requires ground { IsGround spec.now outcomes.now self.old }
        requires numbered { IsNumbered (length outcomes.now) run.tag }
        ensures ground { OnOk result (IsGround spec.now outcomes.now self.new) }
        ensures answer { IfOk result (IsFirstFalse spec.now.run (fact_in outcomes.now run.tag) run.first end) }
    {
        let mut rank = run.first;
        while rank < end {
            let Some(after) = self.true_until(spec, outcomes, run.tag, rank, end)? else {
                return Ok(Some(rank));
            };
            rank = after;
        }
        Ok(None)
    }

    /// A rank behind this one, up to which what a tag says is true at each from this one on. None where it is not true here. Ranks from `end`
    /// on need not be looked at.
    fn true_until(
        &mut self,
        spec: &Spec,
        outcomes: &CompactOutcomes,
        tag: Tag,
        rank: u64,
        end: u64,
    ) -> Result<Option<u64>, AllocError>
        requires ground { IsGround spec.now outcomes.now self.old }
        requires numbered { IsNumbered (length outcomes.now) tag }
        requires inside { rank < end }
        ensures ground { OnOk result (IsGround spec.now outcomes.now self.new) }
        ensures answer { IfOk result (IsTrueUntil spec.now.run (fact_in outcomes.now tag) rank) }
    {
        match self {
            Ground::Started(tester) => match tag {
                Tag::Ran(number) => ran_until(tester, outcomes, number as usize, rank),
                Tag::Swap(place) => swap_until(&mut tester.path, rank, place, end),
            },
            Ground::Refused => Ok(None),
        }
    }
}

/// Behind the rank, if its outcome has this number in the table.
fn ran_until(
    tester: &mut Tester<'_>,
    outcomes: &CompactOutcomes,
    number: usize,
    rank: u64,
) -> Result<Option<u64>, AllocError>
    requires path { IsPath tester.old.path.world.file tester.old.path }
    requires compared { AreCompared tester.old.path.world.told outcomes.now tester.old.comparisons.last.items }
    requires number { number < length outcomes.now }
    requires last { rank < u64.MAX }
    ensures path { OnOk result (IsPath tester.old.path.world.file tester.new.path) }
    ensures compared { OnOk result (AreCompared tester.new.path.world.told outcomes.now tester.new.comparisons.last.items) }
    ensures answer { IfOk result (IsTrueUntil tester.old.path.world.file.run (fact.Ran (slice_index_or outcomes.now number [])) rank) }
{
    let is_ran = is_ran(
        &mut tester.path,
        &mut tester.comparisons,
        outcomes,
        number,
        rank,
    )?;
    if is_ran { Ok(Some(rank + 1)) } else { Ok(None) }
}
