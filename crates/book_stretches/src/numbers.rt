//! A number for each outcome.

ghost use Rattle.std.specs.Prelude.{◌≡◌, OnOk, OnErr};
ghost use Rattle.std.specs.Option.{option_copied};
ghost use Rattle.finite_maps.specs.Map as map;

use compact_outcomes::CompactOutcome;
use std::alloc::{AllocError, Global};
use std::collections::BTreeMap;
use std::marker::Model;

/// A number for each outcome, seen by contracts as a finite map.
#[derive(Drop)]
pub(crate) struct Numbers<'a> {
    numbers: BTreeMap<CompactOutcome<'a>, u32>,
}

impl<'a> Model for Numbers<'a> {
    ghost use Rattle.std.specs.Coded.{codes};
    ghost use Rattle.finite_maps.specs.Codes.{map_code};
    ghost use Rattle.finite_maps.specs.Map.{of_entries};
    ghost use Rattle.lock_modes.specs.contracts.value.Value as value;
    ghost use Rattle.events.specs.contracts.event.Event as event;
    ghost use Rattle.book_stretches.specs.Classes.{ByOutcome};
    ghost use Rattle.transcripts.proofs.OutcomeOrder.{outcome_order};

    ghost Value = { ByOutcome };

    ghost coded = { Prim.hlevel (codes, map_code, value.the_row.coded, event.the_row.coded) };

    ghost view = { λ n. of_entries outcome_order n.numbers.entries };
}

impl<'a> Numbers<'a> {
    pub fn new(alloc: Global) -> Numbers<'a>
        ensures { result ≡ map.empty }
    {
        Numbers {
            numbers: BTreeMap::new(alloc),
        }
    }

    pub fn get(&self, outcome: &CompactOutcome<'a>) -> Option<&u32>
        ensures { option_copied result ≡ map.get self.now outcome.now }
    {
        self.numbers.get(outcome)
    }

    pub fn put(&mut self, outcome: CompactOutcome<'a>, number: u32) -> Result<(), AllocError>
        ensures ok { OnOk result (self.new ≡ map.insert self.old outcome.entry number) }
        ensures err { OnErr result (self.new ≡ self.old) }
    {
        self.numbers.insert(outcome, number)?;
        Ok(())
    }
}
