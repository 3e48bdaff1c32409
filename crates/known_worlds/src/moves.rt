//! What a world is asked to do, one behind the other.

ghost use Rattle.std.specs.Prelude.{◌≤◌, IfNone, IfSome, length};
ghost use Rattle.known_worlds.specs.Moves.{HaveNoMark, IsNewestMark};

/// A mark is set, or a step is sent.
#[derive(Clone, Copy)]
pub(crate) enum Move {
    Mark,
    Send(u8),
}

/// The place of the newest mark that the first so many moves set.
pub(crate) fn newest_mark(path: &[Move], end: usize) -> Option<usize>
    requires { end ≤ length path.now }
    ensures found { IfSome result (IsNewestMark path.now end) }
    ensures none { IfNone result (HaveNoMark path.now end) }
{
    let mut left = end;
    'later: while left > 0 {
        left -= 1;
        match path[left] {
            Move::Mark => return Some(left),
            Move::Send(_) => {}
        }
    }
    None
}
