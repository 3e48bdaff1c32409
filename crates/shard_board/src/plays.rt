//! What each step on the table tells, and how places are split and joined.

use crate::history::Entry;
use crate::rule::View;
use atomic_table::{Join, Play, Split};
use fact_books::Book;
use std::marker::{Brand, PhantomData};

/// A claim: the next number.
pub(crate) struct Draw;

impl Play<Option<Book>, View> for Draw {
    ghost use Rattle.shard_board.specs.Claiming.{Draws};

    ghost then = { Draws };
}

/// A ticket for a turn.
pub(crate) struct Queue;

impl Play<Option<Book>, View> for Queue {
    ghost use Rattle.shard_board.specs.Turning.{Queues};

    ghost then = { Queues };
}

/// A look whether the ticket is served; if so the book is taken.
pub(crate) struct Await;

impl Play<Option<Book>, View> for Await {
    ghost use Rattle.shard_board.specs.Turning.{Waits};

    ghost then = { Waits };
}

/// Names the entry that a turn makes.
pub(crate) trait Said {
    ghost use Rattle.shard_board.specs.declared.history.Entry.{Entry};

    ghost entry: { Entry };
}

impl Said for Brand {
    ghost use Rattle.shard_board.specs.Turning.{no_entry};

    ghost entry = { no_entry };
}

/// The end of a turn: the entry is made, and the book given back.
pub(crate) struct End<E> {
    entry: PhantomData<E>,
}

impl<E: Said> Play<Option<Book>, View> for End<E> {
    ghost use Rattle.shard_board.specs.Turning.{Ends};

    ghost then = { Ends E.entry };
}

/// A look at the history so far.
pub(crate) struct Look;

impl Play<Option<Book>, View> for Look {
    ghost use Rattle.shard_board.specs.Notes.{Looks};

    ghost then = { Looks };
}

/// A place that tells what a seat has seen.
pub(crate) struct Tell;

impl Split<View> for Tell {
    ghost use Rattle.shard_board.specs.Notes.{keeps_all, note_of};

    ghost left = { keeps_all };

    ghost right = { note_of };
}

/// A seat is told what another has seen.
pub(crate) struct Learn;

impl Join<View> for Learn {
    ghost use Rattle.shard_board.specs.Notes.{told_too, spent};

    ghost both = { told_too };

    ghost spent = { spent };
}

/// A seat takes in another.
pub(crate) struct Gather;

impl Join<View> for Gather {
    ghost use Rattle.shard_board.specs.Notes.{gathered, spent};

    ghost both = { gathered };

    ghost spent = { spent };
}

/// A seat gives one of its parts to a seat of its own.
pub(crate) struct Give;

impl Split<View> for Give {
    ghost use Rattle.shard_board.specs.Claiming.{keeps_rest, new_seat};

    ghost left = { keeps_rest };

    ghost right = { new_seat };
}
