//! The table of a board: what its words and its slot hold, what each seat at it knows, and the rule.
//!
//! Word 0 counts the turns so far, word 1 the tickets drawn, word 2 the claims asked for. Slot 0 has the board's book; a turn takes it
//! out, and gives it back when it ends.

use crate::history::Entry;
use atomic_table::{Seat, Table, TableRule};
use fact_books::Book;
use std::alloc::Global;
use std::collections::LinkedList;

/// The word that counts the turns so far; its value is the ticket that is served.
pub(crate) const SERVING: usize = 0;

/// The word that counts the tickets drawn.
pub(crate) const TICKET: usize = 1;

/// The word that counts the claims asked for; up to the number of shards its value is the next shard.
pub(crate) const NEXT: usize = 2;

/// What a seat knows, or knew when it was joined to another. No value of it is made.
pub struct Part {
    pub number: u8,
    pub seen: LinkedList<Entry>,
    pub calls: LinkedList<Entry>,
    pub claims: LinkedList<u32>,
    pub refused: bool,
}

/// What a place at the table knows: a seat its own part and those of the seats that were joined to it, a note, which is not live, what
/// it tells. No value of it is made.
pub struct View {
    pub live: bool,
    pub own: Part,
    pub told: LinkedList<Entry>,
    pub joined: LinkedList<Part>,
    pub ticket: Option<u64>,
    pub holding: bool,
    pub plan: Plan,
}

/// What a board is told once: how many shards and seats it has, and the book of its spec without facts.
#[derive(Drop)]
pub struct Plan {
    pub shards: u32,
    pub seats: u8,
    pub empty: Book,
}

pub struct Law;

impl TableRule<Option<Book>, View, Plan> for Law {
    ghost use Rattle.shard_board.specs.Claiming.{Kept, first_view};

    ghost holds = { Kept };

    ghost first = { first_view };
}

pub(crate) type Words = Table<Option<Book>, View, Plan, Law, Global>;

pub(crate) type Place = Seat<Option<Book>, View>;
