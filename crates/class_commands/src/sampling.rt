//! A sample of the orders of a spec, in classes.

ghost use Rattle.std.specs.Prelude.{◌≡◌, ◌≢◌, ◌<◌, ◌^◌, [], All, max, IfErr, IfOk, Some, get_or, length, map, set, slice_get};
ghost use Rattle.bound_specs.specs.Spec.{ranks as all_ranks};
ghost use Rattle.machine_model.specs.Start.{Started, start};
ghost use Rattle.machine_model.specs.World.{World};
ghost use Rattle.order_classes.specs.declared.rows.ClassRow.{ClassRow as Row};
ghost use Rattle.class_rows.specs.Pages.{IsClassed};
ghost use Rattle.spec_classes.specs.Classes.{drawn};
ghost use Rattle.wanted_classes.specs.declared.wanted.WantedSample.{WantedSample as Sample};
ghost use Rattle.class_commands.specs.Classing.{AreCounted, with_rank};
ghost use Rattle.class_commands.specs.Parts.{IsNotCounted};

use crate::classing::Explored;
use bound_specs::Spec;
use class_rows::{Asked, Classed, FoundOrders, classed};
use order_classes::ClassRow;
use schedule_counts::StatesError;
use spec_classes::{drawn_classes, drawn_ranks};
use std::alloc::Global;
use wanted_classes::WantedSample;

/// What is found of a sample of the orders of a spec.
pub(crate) fn drawn_from(
    alloc: Global,
    sample: WantedSample,
    explored: Explored<'_>,
    asked: Asked<'_>,
) -> Result<Classed, StatesError>
    ensures found { IfOk result (AreCounted (Some sample) explored.entry.kind explored.entry.tables.now explored.entry.spec.now.run asked.entry.filters.now asked.entry.by) }
    ensures starts { IfOk result (λ _. (w : World) × (start explored.entry.spec.now.run ≡ Started w)) }
    ensures refused { IfErr result (IsNotCounted (Some sample) explored.entry.spec.now) }
{
    let spec = explored.spec;
    let Ok(ranks) = drawn_ranks(alloc, sample.seed, count_of(sample), ranks_of(spec)) else {
        return Err(StatesError::Memory);
    };
    match placed(alloc, explored, &ranks, asked) {
        Ok(mut found) => {
            put_ranks(&mut found.rows, &ranks);
            Ok(found)
        }
        Err(error) => Err(error),
    }
}

/// How many orders are drawn.
fn count_of(sample: WantedSample) -> u64
    ensures is { result ≡ max 1 sample.orders }
    ensures few { result < 2 ^ 32 }
{
    u64::from(sample.orders).max(1)
}

/// How many permutations a spec has.
fn ranks_of(spec: &Spec) -> u64
    ensures all { result ≡ all_ranks spec.now.run }
    ensures some { 0 < result }
{
    match spec.shape() {
        Some(shape) => shape.count(),
        None => spec.ranks(),
    }
}

/// The orders of ranks in classes, each told by its place among these.
fn placed(
    alloc: Global,
    explored: Explored<'_>,
    ranks: &[u64],
    asked: Asked<'_>,
) -> Result<Classed, StatesError>
    requires inside { All (λ r. r < all_ranks explored.spec.now.run) ranks.now }
    requires some { ranks.now ≢ [] }
    requires few { length ranks.now < 2 ^ 63 }
    ensures found { IfOk result (IsClassed explored.entry.kind explored.entry.tables.now (drawn explored.entry.spec.now.run ranks.now) asked.entry.filters.now asked.entry.by) }
    ensures starts { IfOk result (λ _. (w : World) × (start explored.entry.spec.now.run ≡ Started w)) }
    ensures refused { (sample : Sample) → IfErr result (IsNotCounted (Some sample) explored.entry.spec.now) }
{
    let Explored {
        spec,
        tables,
        kind,
        room,
    } = explored;
    let classes = match drawn_classes(alloc, spec, tables, kind, ranks, room) {
        Ok(classes) => classes,
        Err(error) => return Err(error),
    };
    let found = FoundOrders {
        classes: classes.as_slice(),
        serial: None,
    };
    match classed(alloc, &found, asked) {
        Ok(classed) => Ok(classed),
        Err(_) => Err(StatesError::Memory),
    }
}

/// Gives each row the rank that stands at its place.
fn put_ranks(rows: &mut Vec<ClassRow>, ranks: &[u64])
    ensures { rows.new.items ≡ map (with_rank ranks.now) rows.old.items }
{
    for place in 0..rows.len() {
        put_rank(rows, place, ranks);
    }
}

fn put_rank(rows: &mut Vec<ClassRow>, place: usize, ranks: &[u64])
    requires { place < length rows.old.items }
    ensures { (row : Row) → slice_get rows.old.items place ≡ Some row → rows.new.items ≡ set rows.old.items place (with_rank ranks.now row) }
{
    let row = &mut rows[place];
    row.least = rank_at(ranks, row.least);
}

/// The rank at a place.
fn rank_at(ranks: &[u64], place: u64) -> u64
    ensures { result ≡ get_or ranks.now place 0 }
{
    match ranks.get(place as usize) {
        Some(rank) => *rank,
        None => 0,
    }
}
