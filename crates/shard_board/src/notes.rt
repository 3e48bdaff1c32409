//! What a seat sees of the turns, and tells another.

ghost use Rattle.std.specs.Prelude.{◌≡◌, length};
ghost use mathlib.Core.List.{IsPrefix};
ghost use Rattle.shard_board.specs.Changes.{SeesMore};

use crate::board::Board;
use crate::plays::{Learn, Look, Tell};
use crate::rule::SERVING;
use crate::seat::{Note, Seat};

impl Board {
    /// How many turns all seats have made so far. It waits for nobody.
    pub fn progress(&self, seat: &mut Seat) -> u64
        requires { seat.old.board ≡ self.now }
        ensures same { seat.new.board ≡ seat.old.board }
        ensures count { result ≡ length seat.new.seen }
        ensures seen { SeesMore seat.old seat.new }
    {
        self.table.shared.load::<Look>(&mut seat.place, SERVING)
    }

    /// What the seat has seen, for another.
    pub fn note(&self, seat: &mut Seat) -> Note
        requires { seat.old.board ≡ self.now }
        ensures board { result.board ≡ seat.old.board }
        ensures seen { result.seen ≡ seat.old.seen }
        ensures same { seat.new ≡ seat.old }
    {
        let place = self.table.shared.split_seat::<Tell>(&mut seat.place);
        Note { place }
    }

    /// From now on the seat has seen what the note tells of, too.
    pub fn learn(&self, seat: &mut Seat, note: Note)
        requires seat { seat.old.board ≡ self.now }
        requires note { note.board ≡ self.now }
        ensures same { seat.new.board ≡ seat.old.board }
        ensures seen { SeesMore seat.old seat.new }
        ensures told { IsPrefix note.seen seat.new.seen }
    {
        let Note { place } = note;
        self.table.shared.join_seat::<Learn>(&mut seat.place, place);
        self.table.shared.load::<Look>(&mut seat.place, SERVING);
    }
}
