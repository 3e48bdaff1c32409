//! An answer in the caller's buffer.

ghost use Rattle.std.specs.Prelude.{◌≡◌};
ghost use Rattle.page_core.specs.Calls.{IsPut, IsRefused};

use crate::ending::{End, NO_ROOM, end_of};

/// Puts an answer to the front of the buffer, if there is room for all of it, and tells how the call ended. Its length is answered in any case.
pub(crate) fn put(answer: &[u8], ended: End, text: &mut [u8], end: &mut End) -> usize
    ensures { IsPut answer.now ended text.old text.new end.new result }
{
    if answer.len() > text.len() {
        *end = end_of(NO_ROOM);
        return answer.len();
    }
    text[..answer.len()].copy_from_slice(answer);
    *end = ended;
    answer.len()
}

/// Tells how a call ended that has no text.
pub(crate) fn refuse(ended: End, end: &mut End) -> usize
    ensures { IsRefused ended end.new result }
{
    *end = ended;
    0
}
