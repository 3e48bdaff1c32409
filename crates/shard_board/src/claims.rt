//! Claims of shards.

ghost use Rattle.std.specs.Prelude.{◌≡◌, true, None, MatchOption};
ghost use Rattle.shard_board.specs.Changes.{with_new_refusal, IsClaim};

use crate::board::Board;
use crate::plays::Draw;
use crate::rule::NEXT;
use crate::seat::Seat;

impl Board {
    /// The number of the next shard that nobody claimed, which the seat may deliver from now on; None where there is none, and from
    /// then on. It waits for nobody.
    pub fn claim(&self, seat: &mut Seat) -> Option<u32>
        requires { seat.old.board ≡ self.now }
        ensures same { seat.new.board ≡ seat.old.board }
        ensures claimed { MatchOption result (seat.new ≡ with_new_refusal seat.old) (IsClaim self.now.shards seat.old seat.new) }
        ensures ended { seat.old.refused ≡ true → result ≡ None }
    {
        if seat.refused {
            return None;
        }
        let found = self
            .table
            .shared
            .fetch_add::<Draw>(&mut seat.place, NEXT, 1);
        if found < seat.marks.len() as u64 {
            let number = found as u32;
            seat.marks[number as usize] = true;
            Some(number)
        } else {
            seat.refused = true;
            None
        }
    }
}
