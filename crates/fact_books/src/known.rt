//! Where the outcomes that are known by numbers stand in a table.

ghost use Rattle.std.specs.Prelude.{◌≡◌, ◌<◌, ◌∷◌, ◌++◌, ℕ, [], IfOk, IfSome, OnErr, OnOk, Some, length, slice_get, slice_index_or};
ghost use Rattle.fact_books.specs.Known.{known_in, AreInside, IsKnown, KnowsAtMost, MayName};
ghost use Rattle.fact_books.specs.Tables.{Extends};

use crate::table::Table;
use compact_outcomes::CompactText;
use std::alloc::{AllocError, Global};
use std::collections::BTreeMap;
use transcripts::Outcome;

/// The number of an outcome, and its place in a table.
#[derive(Clone, Copy)]
pub(crate) struct Known {
    pub(crate) number: usize,
    pub(crate) place: u32,
}

/// Outcomes that are known by numbers. The index has where a number stands. What it tells is looked up, so that nothing but time and size depends on it.
#[derive(Drop)]
pub(crate) struct KnownPlaces {
    pub(crate) places: Vec<Known>,
    pub(crate) index: BTreeMap<usize, usize>,
}

impl KnownPlaces {
    /// None is known.
    pub(crate) fn new(alloc: Global) -> KnownPlaces
        ensures { result.places.items ≡ [] }
    {
        KnownPlaces {
            places: Vec::new(alloc),
            index: BTreeMap::new(alloc),
        }
    }

    /// The place with a number, if the index finds it.
    fn get(&self, number: usize) -> Option<u32>
        ensures { IfSome result (λ place. (k : ℕ) × (slice_get self.now.places.items k ≡ Some (record { number = number; place = place }))) }
    {
        let at = *self.index.get(&number)?;
        let known = *self.places.get(at)?;
        if known.number == number {
            Some(known.place)
        } else {
            None
        }
    }

    /// Notes the place with a number.
    fn note(&mut self, number: usize, place: u32) -> Result<(), AllocError>
        ensures ok { OnOk result (self.new.places.items ≡ self.old.places.items ++ record { number = number; place = place } ∷ []) }
        ensures err { OnErr result (self.new.places.items ≡ self.old.places.items) }
    {
        self.index.insert(number, self.places.len())?;
        self.places.push(Known { number, place })?;
        Ok(())
    }
}

/// The place of an outcome with a number, by which it is known then. Only one that was not known is looked for in the table, by its text.
pub(crate) fn known_place(
    alloc: Global,
    table: &mut Table,
    known: &mut KnownPlaces,
    number: usize,
    outcome: &Outcome,
) -> Result<u32, AllocError>
    requires inside { AreInside (length table.old) known.old.places.items }
    requires name { MayName (known_in table.old known.old.places.items) number outcome.now }
    ensures bound { IfOk result (λ n. n < length table.new) }
    ensures at { IfOk result (λ n. slice_index_or table.new n [] ≡ outcome.now) }
    ensures extends { Extends table.old table.new }
    ensures inside { AreInside (length table.new) known.new.places.items }
    ensures more { KnowsAtMost (known_in table.old known.old.places.items) number outcome.now (known_in table.new known.new.places.items) }
    ensures known { OnOk result (IsKnown (known_in table.new known.new.places.items) number outcome.now) }
{
    if let Some(place) = known.get(number) {
        return Ok(place);
    }
    let text = CompactText::of(alloc, outcome)?;
    let place = table.number(&text.as_outcome())?;
    known.note(number, place)?;
    Ok(place)
}
