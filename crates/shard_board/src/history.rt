//! What the history of a board tells: turns, and the replies that they got.

use std::marker::Model;

/// Where an accepted delivery stands.
#[derive(Clone, Copy, Debug, PartialEq, Eq)]
pub struct Receipt {
    /// The number of turns before it, from 0 on.
    pub turn: u64,
    /// The number of the shard.
    pub number: u32,
}

/// A set of facts, in a history. No value of it is made: contracts alone speak of it.
pub struct Facts;

impl Model for Facts {
    ghost use Rattle.std.specs.Coded.{codes};
    ghost use Rattle.std.specs.FinSet as set;
    ghost use Rattle.rank_facts.specs.contracts.fact.Fact as fact;
    ghost use Rattle.fact_books.specs.Entries.{FactSet};

    ghost Value = { FactSet };

    ghost coded = { Prim.hlevel (codes, set.code, fact.the_row.coded) };

    ghost view = { λ _. set.empty };
}

/// What was asked for in a turn, and the reply; without a reply memory was wanted.
pub enum Call {
    /// The shard's number, the facts of the book, and the receipt.
    Deliver(u32, Facts, Option<Receipt>),
    /// The facts of the book that was given.
    Latest(Option<Facts>),
}

/// A turn: the number of the seat whose call it was, and the call.
pub struct Entry {
    pub by: u8,
    pub call: Call,
}
