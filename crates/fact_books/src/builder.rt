//! A set of facts that grows by runs in the order of ranks.

ghost use Rattle.std.specs.Prelude.{◌≡◌, ◌<◌, ◌≤◌, [], OnOk, OnErr, IfOk, length};
ghost use Rattle.std.specs.FinSet as set;
ghost use Rattle.fact_books.specs.Runs.{fact_in, IsNumbered};
ghost use Rattle.fact_books.specs.Tables.{Extends};
ghost use Rattle.fact_books.specs.Books.{IsKept, facts_in};
ghost use Rattle.fact_books.specs.Building.{added};
ghost use Rattle.fact_books.specs.Known.{IsKnown, KnowsAtMost, MayName};
ghost use Rattle.rank_facts.specs.declared.fact.Fact.TheVariants.{Ran};

use crate::known::{KnownPlaces, known_place};
use crate::run::{Run, Tag, add_run};
use crate::table::Table;
use compact_outcomes::CompactText;
use rank_facts::Fact;
use std::alloc::{AllocError, Global};
use std::marker::Model;
use transcripts::Outcome;

/// Facts of runs, of which no further one may begin before `next`. Who tells outcomes by numbers of its own, as a walk does, has each looked for once.
pub struct Builder {
    table: Table,
    runs: Vec<Run>,
    next: u64,
    known: KnownPlaces,
}

// Written out and not derived, so that who owns one calls this and does not let its parts go one by one.
impl Drop for Builder {
    fn drop(self) {
        let Builder {
            table: _table,
            runs: _runs,
            next: _,
            known: _known,
        } = self;
    }
}

impl Model for Builder {
    ghost use Rattle.std.specs.Coded.{codes};
    ghost use Rattle.std.specs.FinSet as set;
    ghost use Rattle.rank_facts.specs.contracts.fact.Fact as fact;
    ghost use Rattle.fact_books.specs.Building.{Building, built_of, IsBuilt};

    ghost Value = { Building };

    ghost coded = { Prim.hlevel (codes, set.code, fact.the_row.coded) };

    ghost view = { λ b. built_of b.table b.runs.items b.next b.known.places.items };

    ghost invariant = { λ b. IsBuilt b.table b.runs.items b.next b.known.places.items };
}

impl Builder {
    /// No facts yet.
    pub fn new(alloc: Global) -> Builder
        ensures facts { result.facts ≡ set.empty }
        ensures next { result.next ≡ 0 }
        ensures known { result.known ≡ [] }
    {
        Builder::of_none(alloc, Table::new(alloc), Vec::new(alloc))
    }

    /// The same, with room for so many runs and as many outcomes, whose texts have so many bytes in all.
    pub fn with_room(alloc: Global, runs: usize, bytes: usize) -> Result<Builder, AllocError>
        ensures facts { IfOk result (λ builder. builder.facts ≡ set.empty) }
        ensures next { IfOk result (λ builder. builder.next ≡ 0) }
        ensures known { IfOk result (λ builder. builder.known ≡ []) }
    {
        Ok(Builder::of_none(
            alloc,
            Table::with_room(alloc, runs, bytes)?,
            Vec::with_capacity(alloc, runs)?,
        ))
    }

    /// No facts yet, with what there is room in.
    fn of_none(alloc: Global, table: Table, runs: Vec<Run>) -> Builder
        requires table { table ≡ [] }
        requires runs { runs.items ≡ [] }
        ensures facts { result.facts ≡ set.empty }
        ensures next { result.next ≡ 0 }
        ensures known { result.known ≡ [] }
    {
        Builder {
            table,
            runs,
            next: 0,
            known: KnownPlaces::new(alloc),
        }
    }

    /// Adds the fact at each rank from `first` up to but not `end`, at the cost of one. A rank may get several facts.
    pub fn push(&mut self, first: u64, end: u64, fact: &Fact) -> Result<(), AllocError>
        requires in_order { self.old.next ≤ first }
        requires some { first < end }
        ensures ok { OnOk result (self.new ≡ added self.old first end fact.now) }
        ensures err { OnErr result (self.new ≡ self.old) }
    {
        let alloc = *self.runs.allocator();
        let tag = tag_of(alloc, &mut self.table, fact)?;
        let last = self.runs.len().saturating_sub(1);
        add_run(&mut self.runs, last, Run { first, end, tag })?;
        self.next = first;
        Ok(())
    }

    /// The same of an outcome that has a number, by which it is known then. Where memory is refused it may be known already.
    pub fn push_known(
        &mut self,
        first: u64,
        end: u64,
        number: usize,
        outcome: &Outcome,
    ) -> Result<(), AllocError>
        requires in_order { self.old.next ≤ first }
        requires some { first < end }
        requires name { MayName self.old.known number outcome.now }
        ensures ok { OnOk result (self.new ≡ record (added self.old first end (Ran outcome.now)) { known = self.new.known }) }
        ensures err { OnErr result (self.new ≡ record self.old { known = self.new.known }) }
        ensures more { KnowsAtMost self.old.known number outcome.now self.new.known }
        ensures known { OnOk result (IsKnown self.new.known number outcome.now) }
    {
        let alloc = *self.runs.allocator();
        let place = known_place(alloc, &mut self.table, &mut self.known, number, outcome)?;
        let last = self.runs.len().saturating_sub(1);
        let tag = Tag::Ran(place);
        add_run(&mut self.runs, last, Run { first, end, tag })?;
        self.next = first;
        Ok(())
    }

    /// The table and the runs.
    pub(crate) fn into_parts(self) -> (Table, Vec<Run>)
        ensures is { facts_in result.0 result.1.items ≡ self.facts }
        ensures kept { IsKept result.0 result.1.items }
    {
        let Builder {
            table,
            runs,
            next: _,
            known: _known,
        } = self;
        (table, runs)
    }
}

/// The tag that stands for the fact.
fn tag_of(alloc: Global, table: &mut Table, fact: &Fact) -> Result<Tag, AllocError>
    ensures fact { IfOk result (λ tag. fact_in table.new tag ≡ fact.now) }
    ensures numbered { IfOk result (λ tag. IsNumbered (length table.new) tag) }
    ensures extends { Extends table.old table.new }
{
    match fact {
        Fact::Ran(outcome) => {
            let text = CompactText::of(alloc, outcome)?;
            Ok(Tag::Ran(table.number(&text.as_outcome())?))
        }
        Fact::Swap(place) => Ok(Tag::Swap(*place)),
    }
}
