//! Outcomes that were told, compared with those of a table: numbers tell what was compared before.

ghost use Rattle.std.specs.Prelude.{◌≡◌, ◌<◌, ◌↔◌, ℕ, [], IfOk, IfSome, IsTrue, List, OnOk, Some, length, slice_get, slice_index_or};
ghost use Rattle.machine_model.specs.World.{outcome_of, send_all};
ghost use Rattle.known_worlds.specs.Paths.{first_world, IsPath};
ghost use Rattle.fact_books.specs.Runs.{Table};
ghost use Rattle.fact_books.specs.Entries.{Told};
ghost use Rattle.book_audit.specs.Compared.{AreCompared, IsCompared};

use compact_outcomes::{CompactOutcomes, CompactText};
use known_worlds::MarkedPath;
use std::alloc::{AllocError, Global};

/// Whether the outcome that was told with a number is the one at a place of a table.
#[derive(Clone, Copy)]
pub(crate) struct Comparison {
    pub(crate) number: usize,
    pub(crate) place: usize,
    pub(crate) is_same: bool,
}

/// For each outcome that was told, the last comparison of it, if one is noted. Each is right; where one stands matters for speed alone.
#[derive(Drop)]
pub(crate) struct Comparisons {
    pub(crate) last: Vec<Comparison>,
}

impl Comparisons {
    /// Nothing was compared.
    pub(crate) fn new(alloc: Global) -> Comparisons
        ensures { result.last.items ≡ [] }
    {
        Comparisons {
            last: Vec::new(alloc),
        }
    }

    /// Whether a told outcome is the one at a place, if that was compared last.
    fn get(&self, number: usize, place: usize) -> Option<bool>
        ensures { IfSome result (λ is_same. (k : ℕ)
            × (slice_get self.now.last.items k ≡ Some (record { number = number; place = place; is_same = is_same }))) }
    {
        let last = *self.last.get(number)?;
        if last.number != number {
            return None;
        }
        if last.place != place {
            return None;
        }
        Some(last.is_same)
    }

    /// Notes a comparison. Outcomes are compared when they are told first, so that their numbers leave no gap; behind one nothing is noted.
    fn note(&mut self, comparison: Comparison) -> Result<(), AllocError>
        ensures { OnOk result ((told : List Told) (table : Table) → IsCompared told table comparison → AreCompared told table self.old.last.items
            → AreCompared told table self.new.last.items) }
    {
        let number = comparison.number;
        if number < self.last.len() {
            self.last[number] = comparison;
        } else if number == self.last.len() {
            self.last.push(comparison)?;
        }
        Ok(())
    }
}

/// Whether a path tells the outcome at a place of a table. Only where they were not compared last the outcomes are.
pub(crate) fn tells(
    path: &mut MarkedPath<'_>,
    comparisons: &mut Comparisons,
    outcomes: &CompactOutcomes,
    place: usize,
) -> Result<bool, AllocError>
    requires path { IsPath path.old.world.file path.old }
    requires compared { AreCompared path.old.world.told outcomes.now comparisons.old.last.items }
    requires place { place < length outcomes.now }
    ensures path { OnOk result (IsPath path.old.world.file path.new) }
    ensures compared { OnOk result (AreCompared path.new.world.told outcomes.now comparisons.new.last.items) }
    ensures answer { IfOk result (λ yes. IsTrue yes ↔ outcome_of path.old.world.file.run.sessions
        (send_all path.old.world.file.run.steps (first_world path.old.world.file.run) path.old.line.items) ≡ slice_index_or outcomes.now place []) }
{
    let number = path.outcome()?;
    if let Some(is_same) = comparisons.get(number, place) {
        return Ok(is_same);
    }
    let alloc = *comparisons.last.allocator();
    let told = CompactText::of(alloc, path.told(number))?;
    let is_same = told.as_outcome().is_same(&outcomes.get(place));
    comparisons.note(Comparison {
        number,
        place,
        is_same,
    })?;
    Ok(is_same)
}
