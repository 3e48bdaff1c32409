//! Whether facts of a spec that starts are true.

ghost use Rattle.std.specs.Prelude.{◌≡◌, ◌↔◌, ◌+◌, ◌<◌, ◌≤◌, [], All, length, slice_index_or, IfOk, OnOk, IsTrue};
ghost use Rattle.bound_specs.specs.Spec.{ranks, line_of};
ghost use Rattle.rank_facts.specs.Facts.{IsTrueAt};
ghost use Rattle.rank_facts.specs.Swap.{are_quiet_at, falls_at, word_of};
ghost use Rattle.rank_facts.specs.declared.fact.Fact.TheVariants as fact;
ghost use Rattle.known_worlds.specs.Paths.{IsPath};
ghost use Rattle.known_worlds.specs.Paths.{first_world};
ghost use Rattle.perm_ranks.specs.Words.{all_words, total};
ghost use Rattle.book_audit.specs.Compared.{AreCompared};
ghost use Rattle.book_audit.specs.Grounds.{IsTrueUntil, AreAlikeTo};

use crate::comparing::{Comparisons, tells};
use bound_specs::{Line, Spec};
use compact_outcomes::CompactOutcomes;
use known_worlds::MarkedPath;
use perm_ranks::{Shape, shared_block};
use std::alloc::AllocError;

/// Whether the outcome with this number in the table is that of a rank.
pub(crate) fn is_ran(
    path: &mut MarkedPath<'_>,
    comparisons: &mut Comparisons,
    outcomes: &CompactOutcomes,
    number: usize,
    rank: u64,
) -> Result<bool, AllocError>
    requires path { IsPath path.old.world.file path.old }
    requires compared { AreCompared path.old.world.told outcomes.now comparisons.old.last.items }
    requires number { number < length outcomes.now }
    ensures path { OnOk result (IsPath path.old.world.file path.new) }
    ensures compared { OnOk result (AreCompared path.new.world.told outcomes.now comparisons.new.last.items) }
    ensures answer { IfOk result (λ yes. IsTrue yes ↔ IsTrueAt path.old.world.file.run rank (fact.Ran (slice_index_or outcomes.now number []))) }
{
    let Some(line) = path.spec().line(rank) else {
        return Ok(false);
    };
    path.go_to(line)?;
    tells(path, comparisons, outcomes, number)
}

/// A rank behind this one, up to which the swap at a place is true at each from this one on. None where it is not true here. Ranks from
/// `end` on need not be looked at.
pub(crate) fn swap_until(
    path: &mut MarkedPath<'_>,
    rank: u64,
    place: u8,
    end: u64,
) -> Result<Option<u64>, AllocError>
    requires path { IsPath path.old.world.file path.old }
    requires inside { rank < end }
    ensures path { OnOk result (IsPath path.old.world.file path.new) }
    ensures told { path.new.world.told ≡ path.old.world.told }
    ensures answer { IfOk result (IsTrueUntil path.old.world.file.run (fact.Swap place) rank) }
{
    let spec = path.spec();
    let Some(shape) = spec.shape() else {
        return Ok(None);
    };
    let Some(line) = spec.line(rank) else {
        return Ok(None);
    };
    if !falls(spec, &line, rank, place) {
        return Ok(None);
    }
    if !are_quiet(path, line, rank, place)? {
        return Ok(None);
    }
    // Most runs of a swap are of one rank, and end here.
    if rank + 1 == end {
        return Ok(Some(end));
    }
    Ok(Some(alike_to(shape, rank, place)))
}

/// Whether the word of a rank falls at a place: the step there is one of a later session than the step behind it.
fn falls(spec: &Spec, line: &Line, rank: u64, place: u8) -> bool
    requires words { spec.now.run.lines ≡ [] }
    requires has { rank < ranks spec.now.run }
    requires line { line.now.items ≡ line_of spec.now.run rank }
    requires known { All (λ k. k < length spec.now.run.steps) line.now.items }
    ensures { result ≡ falls_at place (word_of spec.now.run rank) }
{
    let place = place as usize;
    if place + 1 >= line.len() {
        return false;
    }
    spec.session_of(line[place + 1]) < spec.session_of(line[place])
}

/// Whether the steps at a place of the line of a rank and behind it are quiet in the world before them.
fn are_quiet(
    path: &mut MarkedPath<'_>,
    mut line: Line,
    rank: u64,
    place: u8,
) -> Result<bool, AllocError>
    requires path { IsPath path.old.world.file path.old }
    requires line { line.items ≡ line_of path.old.world.file.run rank }
    requires known { All (λ k. k < length path.old.world.file.run.steps) line.items }
    requires steps { place + 1 < length (line_of path.old.world.file.run rank) }
    ensures path { OnOk result (IsPath path.old.world.file path.new) }
    ensures told { path.new.world.told ≡ path.old.world.told }
    ensures answer { IfOk result (λ yes. yes ≡ are_quiet_at path.old.world.file.run (first_world path.old.world.file.run) rank place) }
{
    let place = place as usize;
    let step = line[place];
    let next = line[place + 1];
    line.truncate(place);
    path.go_to(line)?;
    path.is_quiet(step, next)
}

/// Behind which ranks the words no longer share the letters up to the one behind a place. Words that share them are exchanged alike.
fn alike_to(shape: &Shape, rank: u64, place: u8) -> u64
    requires has { rank < length (all_words shape.now) }
    requires letters { place + 2 ≤ total shape.now }
    ensures { AreAlikeTo shape.now rank place result }
{
    let _letters = shape.block().letters_left(); // for the proof
    shared_block(shape, rank, place + 2).end()
}
