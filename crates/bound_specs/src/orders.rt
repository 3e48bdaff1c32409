ghost use Rattle.std.specs.Prelude.{◌≡◌};

use crate::MAX_SENT;
use arrayvec::ArrayVec;
use perm_ranks::Shape;

/// The steps of one permutation, by their numbers, in the order in which they are sent.
pub type Line = ArrayVec<u8, MAX_SENT>;

/// In which orders the steps are sent: by all words of the shape, or by the lines of the file.
pub enum Orders {
    Words(Shape),
    Lines(Vec<Line>),
}

// Written out and not derived, so that who owns one calls this and does not let its parts go one by one.
impl Drop for Orders {
    fn drop(self) {
        match self {
            Orders::Words(_shape) => {}
            Orders::Lines(_vec) => {}
        }
    }
}

/// The same line. `clone` can fail, and this can't.
pub(crate) fn copied(line: &Line) -> Line
    ensures { result.items ≡ line.now.items }
{
    let mut copy = Line::new();
    copy.try_extend_from_slice(line.as_slice()).unwrap();
    copy
}
