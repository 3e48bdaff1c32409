//! Boards.

ghost use Rattle.std.specs.Prelude.{◌≡◌, ◌↔◌, ◌≤◌, true, All, vec_len, length, None, IfOk, IfErr, OnOk};
ghost use Rattle.rank_facts.specs.Shards.{IsShardOf};
ghost use Rattle.shard_board.specs.Changes.{IsPlanOf, IsRowOf};
ghost use Rattle.shard_board.specs.Refused.{IsNoBoard};

use crate::error::{BoardError, MAX_SEATS, MAX_SHARDS};
use crate::rule::{Plan, Words};
use crate::seat::Seat;
use crate::seating::place_all;
use bound_specs::Spec;
use fact_books::Book;
use rank_facts::{MAX_RANKS, Shard};
use std::alloc::{AllocError, Global};
use std::marker::Model;

/// A board of one spec. Threads share it by reference, and each calls it with a seat of its own. Contracts see which board it is, the
/// spec, and how many shards and seats it has.
#[derive(Drop)]
pub struct Board {
    pub(crate) table: Words,
    pub(crate) plan: Plan,
}

impl Model for Board {
    ghost use Rattle.std.specs.Coded.{codes};
    ghost use Rattle.bound_specs.specs.contracts.spec.Spec as file;
    ghost use Rattle.shard_board.specs.Shown.{ShownBoard, shown_board, IsBoard};

    ghost Value = { ShownBoard };

    ghost coded = { Prim.hlevel (codes, file.the_row.coded) };

    ghost view = { λ b. shown_board b.table.shared.table_id b.plan };

    ghost invariant = { λ b. IsBoard b.table.shared.table_id b.table.shared.key b.plan };
}

impl Board {
    /// A board for these shards of a spec, with an empty book and nothing claimed, and its seats, which are numbered from 0 on. Levels are not asked for.
    pub fn new(
        alloc: Global,
        spec: &Spec,
        shards: Vec<Shard>,
        seats: u8,
    ) -> Result<(Board, Vec<Seat>), BoardError>
        requires unasked { spec.now.asked ≡ None }
        ensures refused { IfErr result (IsNoBoard spec.now.run shards.items seats) }
        ensures lawful { OnOk result (IsPlanOf spec.now.run shards.items seats) }
        ensures spec { IfOk result (λ r. r.0.file ≡ spec.now) }
        ensures counts { IfOk result (λ r. (r.0.shards ≡ vec_len shards) × (r.0.seats ≡ seats) × (vec_len r.1 ≡ seats)) }
        ensures fresh { IfOk result (λ r. IsRowOf r.0 r.1.items) }
        ensures board { IfOk result (λ r. All (λ s. s.board ≡ r.0) r.1.items) }
    {
        if !is_plan(spec, shards.as_slice(), seats) {
            return Err(BoardError::BadPlan);
        }
        match made(alloc, spec, shards.len() as u32, seats) {
            Ok(made) => Ok(made),
            Err(_) => Err(BoardError::NoMemory),
        }
    }
}

/// A board and its seats.
fn made(
    alloc: Global,
    spec: &Spec,
    shards: u32,
    seats: u8,
) -> Result<(Board, Vec<Seat>), AllocError>
    requires unasked { spec.now.asked ≡ None }
    requires few { (shards ≤ MAX_SHARDS) × (1 ≤ seats) × (seats ≤ MAX_SEATS) }
    ensures spec { IfOk result (λ r. r.0.file ≡ spec.now) }
    ensures counts { IfOk result (λ r. (r.0.shards ≡ shards) × (r.0.seats ≡ seats) × (vec_len r.1 ≡ seats)) }
    ensures fresh { IfOk result (λ r. IsRowOf r.0 r.1.items) }
{
    let empty = Book::empty(alloc, spec)?;
    let plan = Plan {
        shards,
        seats,
        empty,
    };
    let book = Book::empty(alloc, spec)?;
    let slots = vec![in alloc; Some(book)]?;
    let Ok((table, first)) = Words::new(alloc, &[0, 0, 0], slots, &plan) else {
        return Err(AllocError);
    };
    let row = place_all(alloc, &table, first, &plan)?;
    Ok((Board { table, plan }, row))
}

/// Whether a plan is lawful: these are shards of the spec, and not too many, for so many seats.
pub fn is_plan(spec: &Spec, shards: &[Shard], seats: u8) -> bool
    ensures { (result ≡ true) ↔ IsPlanOf spec.now.run shards.now seats }
{
    if shards.len() > MAX_SHARDS || seats == 0 || seats > MAX_SEATS {
        return false;
    }
    are_shards(spec, shards)
}

/// Whether each of these is a shard of the spec.
fn are_shards(spec: &Spec, shards: &[Shard]) -> bool
    ensures { (result ≡ true) ↔ All (IsShardOf spec.now.run) shards.now }
{
    shards.iter().all(|shard| is_shard(spec, *shard))
}

/// Whether this is a shard of the spec.
fn is_shard(spec: &Spec, shard: Shard) -> bool
    ensures { (result ≡ true) ↔ IsShardOf spec.now.run shard }
{
    shard.first <= shard.end && shard.end <= spec.ranks() && shard.end - shard.first <= MAX_RANKS
}
