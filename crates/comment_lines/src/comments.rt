//! The comments of a spec file that have their line for themselves.

ghost use Rattle.std.specs.Prelude.{◌≡◌, ◌++◌, ◌<◌, ◌+◌, IfOk, length, drop, map, option_map, slice_index, take_while};
ghost use Rattle.byte_runs.specs.Bytes.{in_class};
ghost use Rattle.comment_lines.specs.Comments.{behind_label, comment_at, comment_lines, seen};

use crate::blanks::{after_blanks, trimmed};
use crate::places::{Place, begins_comment, behind};
use byte_runs::{Class, run_of};
use std::alloc::{AllocError, Global};

/// A comment that has its line for itself.
#[derive(Clone, Copy, Drop)]
pub struct Comment<'a> {
    /// The offset of its `#` in the file, in bytes.
    pub at: usize,
    /// What stands behind that on its line.
    pub text: &'a str,
}

/// The comments of a spec file that have their line for themselves and stand outside of blocks, in the order of the file.
pub fn comment_lines<'a>(alloc: Global, text: &'a str) -> Result<Vec<Comment<'a>>, AllocError>
    ensures { IfOk result (λ comments. map seen comments.items ≡ comment_lines text.entry.now) }
{
    let bytes = text.as_bytes();
    let mut comments = Vec::new(alloc);
    let mut place = Place::Margin;
    for at in 0..bytes.len() {
        push_comment(place, text, at, &mut comments)?;
        place = behind(place, bytes[at]);
    }
    Ok(comments)
}

fn push_comment<'a>(
    place: Place,
    text: &'a str,
    at: usize,
    comments: &mut Vec<Comment<'a>>,
) -> Result<(), AllocError>
    requires { at < length text.now }
    ensures { IfOk result (λ _. map seen comments.new.items ≡ map seen comments.old.items ++ comment_at place at (slice_index text.entry.now at) (drop (at + 1) text.entry.now)) }
{
    if begins_comment(place, text.as_bytes()[at]) {
        comments.push(Comment {
            at,
            text: line_behind(text, at),
        })?;
    }
    Ok(())
}

/// What stands behind a byte on its line.
fn line_behind(text: &str, at: usize) -> &str
    requires inside { at < length text.now }
    requires ascii { slice_index text.now at < 128 }
    ensures { result.now ≡ take_while (in_class Class.Comment) (drop (at + 1) text.now) }
{
    let (_, rest) = text.split_at(at + 1);
    let (line, _) = run_of(Class::Comment, rest);
    line
}

/// What stands behind a label at the front of a comment, without the blanks at its ends; none where another text stands there.
pub fn behind_label<'a>(label: &str, text: &'a str) -> Option<&'a str>
    ensures { option_map (λ word. word.now) result ≡ behind_label label.now text.entry.now }
{
    match after_blanks(text).strip_prefix(label) {
        Some(rest) => Some(trimmed(rest)),
        None => None,
    }
}
