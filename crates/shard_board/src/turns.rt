//! Turns: deliveries, and copies of the board's book.

ghost use Rattle.std.specs.Prelude.{◌≡◌, ◌<◌, false, [], length, slice_index_or, Some, IfOk, IfErr, IfSome, OnOk};
ghost use Rattle.shard_board.specs.History.{entry, facts_of, facts_given, Includes};
ghost use Rattle.shard_board.specs.Turning.{with_turn, Ready, Entered, MayEnd, HasTurned, IsWithoutFacts};
ghost use Rattle.shard_board.specs.Changes.{IsTurn, MayTurn};
ghost use Rattle.shard_board.specs.Refused.{MayDeliver, IsNotDelivered, IsNotGiven};

use crate::board::Board;
use crate::error::{DeliverError, DeliverErrorKind, LatestError, MAX_TURNS};
use crate::history::{Call, Receipt};
use crate::plays::{Await, End, Queue, Said};
use crate::rule::{Place, SERVING, TICKET, Words};
use crate::seat::Seat;
use fact_books::{Book, join};
use std::marker::Brand;
use std::sync::Wait;
use std::thread;

impl Board {
    /// Adds the facts of a book to the board's, for a shard that the seat claimed, also one that was delivered before; the facts are
    /// not compared with the shard's. It waits for its turn, behind those that came before. A refused book comes back.
    pub fn deliver<R: Wait>(
        &self,
        rt: &R,
        seat: &mut Seat,
        number: u32,
        book: Book,
    ) -> Result<Receipt, DeliverError>
        requires { seat.old.board ≡ self.now }
        ensures same { seat.new.board ≡ seat.old.board }
        ensures of_spec { OnOk result (book.file ≡ self.now.file) }
        ensures lawful { OnOk result (MayDeliver seat.old number book × MayTurn seat.old) }
        ensures turn { IfOk result (λ r. IsTurn seat.old seat.new (Call.Deliver number book.facts (Some r))) }
        ensures back { IfErr result (λ e. e.book ≡ book) }
        ensures refused { IfErr result (λ e. IsNotDelivered e.kind seat.old seat.new number book) }
    {
        if book.text() != self.plan.empty.text() {
            return Err(DeliverError {
                kind: DeliverErrorKind::SpecMismatch,
                book,
            });
        }
        if !is_marked(seat.marks.as_slice(), number) {
            return Err(DeliverError {
                kind: DeliverErrorKind::NotClaimed,
                book,
            });
        }
        if seat.turns >= MAX_TURNS {
            return Err(DeliverError {
                kind: DeliverErrorKind::SeatSpent,
                book,
            });
        }
        let by = seat.number;
        let reply = hand_in(rt, &self.table, &mut seat.place, by, number, &book);
        seat.turns += 1;
        let Some(receipt) = reply else {
            return Err(DeliverError {
                kind: DeliverErrorKind::NoMemory,
                book,
            });
        };
        Ok(receipt)
    }

    /// A copy of the board's book: all facts that were delivered so far. It waits for its turn, behind those that came before.
    pub fn latest<R: Wait>(&self, rt: &R, seat: &mut Seat) -> Result<Book, LatestError>
        requires { seat.old.board ≡ self.now }
        ensures same { seat.new.board ≡ seat.old.board }
        ensures of_spec { IfOk result (λ b. b.file ≡ self.now.file) }
        ensures lawful { OnOk result (MayTurn seat.old) }
        ensures turn { IfOk result (λ b. IsTurn seat.old seat.new (Call.Latest (Some b.facts))) }
        ensures holds { IfOk result (λ b. Includes b.facts (facts_of seat.old.seen)) }
        ensures refused { IfErr result (λ e. IsNotGiven e seat.old seat.new) }
    {
        if seat.turns >= MAX_TURNS {
            return Err(LatestError::SeatSpent);
        }
        let by = seat.number;
        let reply = look_up(rt, &self.table, &mut seat.place, by, &self.plan.empty);
        seat.turns += 1;
        let Some(book) = reply else {
            return Err(LatestError::NoMemory);
        };
        Ok(book)
    }
}

/// Whether there is a mark for this number.
fn is_marked(marks: &[bool], number: u32) -> bool
    ensures { result ≡ slice_index_or marks.now number false }
{
    (number as usize) < marks.len() && marks[number as usize]
}

/// Draws a ticket, waits until it is served, and takes the board's book. The ticket is the number of the turn.
fn enter<R: Wait>(rt: &R, table: &Words, place: &mut Place) -> u64
    requires table { (place.old.table_id ≡ table.now.shared.table_id) × (table.now.shared.table_id.words ≡ 3) }
    requires rests { Ready place.old.me }
    requires few { length place.old.me.0.own.calls < MAX_TURNS }
    ensures same { (place.new.table_id ≡ place.old.table_id) × (place.new.id ≡ place.old.id) }
    ensures entered { Entered place.old.me place.new.me result }
{
    let ticket = table.shared.fetch_add::<Queue>(place, TICKET, 1);
    for _ in rt.forever() {
        if table.shared.load::<Await>(place, SERVING) == ticket {
            return ticket;
        }
        thread::yield_now();
    }
    unreachable!()
}

/// Ends a turn in which a book was handed in. The last four arguments name the entry.
fn leave_delivery<E: Said>(
    table: &Words,
    place: &mut Place,
    _by: u8,
    _number: u32,
    _book: &Book,
    _reply: &Option<Receipt>,
)
    requires table { (place.old.table_id ≡ table.now.shared.table_id) × (table.now.shared.table_id.words ≡ 3) }
    requires ready { MayEnd place.old.me E.entry }
    ensures { (place.new.table_id ≡ place.old.table_id) × (place.new.me ≡ (with_turn place.old.me.0 E.entry, [])) }
{
    table.shared.fetch_add::<End<E>>(place, SERVING, 1);
}

/// Ends a turn in which a copy was asked for. The last two arguments name the entry.
fn leave_latest<E: Said>(table: &Words, place: &mut Place, _by: u8, _reply: &Option<Book>)
    requires table { (place.old.table_id ≡ table.now.shared.table_id) × (table.now.shared.table_id.words ≡ 3) }
    requires ready { MayEnd place.old.me E.entry }
    ensures { (place.new.table_id ≡ place.old.table_id) × (place.new.me ≡ (with_turn place.old.me.0 E.entry, [])) }
{
    table.shared.fetch_add::<End<E>>(place, SERVING, 1);
}

/// A turn that adds the facts of a book, or has no memory for it.
fn hand_in<R: Wait>(
    rt: &R,
    table: &Words,
    place: &mut Place,
    by: u8,
    number: u32,
    book: &Book,
) -> Option<Receipt>
    requires table { (place.old.table_id ≡ table.now.shared.table_id) × (table.now.shared.table_id.words ≡ 3) }
    requires rests { Ready place.old.me }
    requires few { (length place.old.me.0.own.calls < MAX_TURNS) × (by ≡ place.old.me.0.own.number) }
    ensures same { place.new.table_id ≡ place.old.table_id }
    ensures of_spec { IfSome result (λ _. book.now.file ≡ place.old.me.0.plan.empty.file) }
    ensures turned { HasTurned place.old.me place.new.me (entry by (Call.Deliver number book.now.facts result)) }
{
    let turn = enter(rt, table, place);
    let Some(mut held) = table.shared.exchange(place, 0, None) else {
        unreachable!()
    };
    match held.add(book) {
        Ok(()) => {
            let _ = table.shared.exchange(place, 0, Some(held));
            let reply = Some(Receipt { turn, number });
            leave_delivery::<Brand>(table, place, by, number, book, &reply);
            reply
        }
        Err(_) => {
            let _ = table.shared.exchange(place, 0, Some(held));
            leave_delivery::<Brand>(table, place, by, number, book, &None);
            None
        }
    }
}

/// A turn that copies the board's book, or has no memory for it. A copy is the join with the book without facts.
fn look_up<R: Wait>(rt: &R, table: &Words, place: &mut Place, by: u8, empty: &Book) -> Option<Book>
    requires table { (place.old.table_id ≡ table.now.shared.table_id) × (table.now.shared.table_id.words ≡ 3) }
    requires rests { Ready place.old.me }
    requires few { (length place.old.me.0.own.calls < MAX_TURNS) × (by ≡ place.old.me.0.own.number) }
    requires empty { IsWithoutFacts empty.now }
    ensures same { place.new.table_id ≡ place.old.table_id }
    ensures of_spec { IfSome result (λ b. b.file ≡ place.old.me.0.plan.empty.file) }
    ensures turned { HasTurned place.old.me place.new.me (entry by (Call.Latest (facts_given result))) }
{
    enter(rt, table, place);
    let Some(held) = table.shared.exchange(place, 0, None) else {
        unreachable!()
    };
    match join(&held, empty) {
        Ok(copy) => {
            let _ = table.shared.exchange(place, 0, Some(held));
            let reply = Some(copy);
            leave_latest::<Brand>(table, place, by, &reply);
            reply
        }
        Err(_) => {
            let _ = table.shared.exchange(place, 0, Some(held));
            leave_latest::<Brand>(table, place, by, &None);
            None
        }
    }
}
