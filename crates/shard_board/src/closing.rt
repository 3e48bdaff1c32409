//! The end of a board.

ghost use Rattle.std.specs.Prelude.{◌≡◌, ◌<◌, [], All, vec_len};
ghost use Rattle.shard_board.specs.Turning.{Ready};
ghost use Rattle.shard_board.specs.Closing.{OfBoard, IsClosed, part_of, Gathered};

use crate::board::Board;
use crate::plays::Gather;
use crate::rule::{NEXT, Place, SERVING, Words};
use crate::seat::Seat;
use fact_books::Book;

/// What a board comes to.
#[derive(Drop)]
pub struct Closed {
    /// All facts of the accepted deliveries.
    pub book: Book,
    /// The number of shards that were claimed.
    pub claimed: u32,
    /// The number of turns.
    pub turns: u64,
}

impl Board {
    /// Ends the board. It takes all the seats that were made with it, in any order.
    pub fn close(self, seats: Vec<Seat>) -> Closed
        requires all { vec_len seats ≡ self.seats }
        requires seats { All (λ s. s.board ≡ self) seats.items }
        ensures { IsClosed self seats.items result.book result.claimed result.turns }
    {
        let Board { table, plan } = self;
        let keeper = all_in_one(&table, seats);
        let mut closed = table.close_with(keeper);
        let turns = closed.word(SERVING);
        let next = closed.word(NEXT);
        let Some(book) = closed.take(0) else {
            unreachable!()
        };
        closed.free();
        let claimed = next.min(u64::from(plan.shards)) as u32;
        Closed {
            book,
            claimed,
            turns,
        }
    }
}

/// The place of a seat.
fn place_of(seat: Seat) -> Place
    ensures { (result.table_id ≡ seat.board.table_id) × Ready result.me × (part_of seat ≡ result.me.0.own) }
{
    let Seat {
        number: _,
        turns: _,
        refused: _,
        marks: _,
        place,
    } = seat;
    place
}

/// One place takes in all others.
fn all_in_one(table: &Words, mut seats: Vec<Seat>) -> Place
    requires table { 0 < table.now.shared.table_id.words }
    requires seats { (0 < vec_len seats) × OfBoard table.now.shared.table_id seats.items }
    ensures { (result.table_id ≡ table.now.shared.table_id) × Gathered result.me [] seats.items }
{
    let Some(first) = seats.pop() else {
        unreachable!()
    };
    let mut keeper = place_of(first);
    while let Some(seat) = seats.pop() {
        let place = place_of(seat);
        table.shared.join_seat::<Gather>(&mut keeper, place);
    }
    keeper
}
