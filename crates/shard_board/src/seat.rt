//! Places at a board, and what one tells another.

use crate::rule::Place;
use std::marker::Model;

/// A caller's place at a board. Contracts see its board, its number, the history that it has seen, its own calls, the numbers that it
/// claimed, and whether a claim was answered None.
#[derive(Drop)]
pub struct Seat {
    pub(crate) number: u8,
    pub(crate) turns: u32,
    pub(crate) refused: bool,
    pub(crate) marks: Vec<bool>,
    pub(crate) place: Place,
}

impl Model for Seat {
    ghost use Rattle.std.specs.Coded.{codes};
    ghost use Rattle.bound_specs.specs.contracts.spec.Spec as file;
    ghost use Rattle.shard_board.specs.contracts.history.Facts as facts;
    ghost use Rattle.shard_board.specs.Shown.{ShownSeat, shown_seat, AtRest};

    ghost Value = { ShownSeat };

    ghost coded = { Prim.hlevel (codes, file.the_row.coded, facts.the_row.coded) };

    ghost view = { λ s. shown_seat s.place.table_id s.place.me.0 };

    ghost invariant = { λ s. AtRest s.number s.turns s.refused s.marks.items s.place.me };
}

/// What a seat had seen, to be told to another. Contracts see its board and the history.
#[derive(Drop)]
pub struct Note {
    pub(crate) place: Place,
}

impl Model for Note {
    ghost use Rattle.std.specs.Coded.{codes};
    ghost use Rattle.bound_specs.specs.contracts.spec.Spec as file;
    ghost use Rattle.shard_board.specs.contracts.history.Facts as facts;
    ghost use Rattle.shard_board.specs.Shown.{ShownNote, shown_note};
    ghost use Rattle.shard_board.specs.Notes.{IsNote};

    ghost Value = { ShownNote };

    ghost coded = { Prim.hlevel (codes, file.the_row.coded, facts.the_row.coded) };

    ghost view = { λ n. shown_note n.place.table_id n.place.me.0 };

    ghost invariant = { λ n. IsNote n.place.me };
}
