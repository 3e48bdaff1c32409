//! A refusal of a file, as people read it.

ghost use Rattle.std.specs.Prelude.{◌≡◌, IfOk, string_bytes};
ghost use Rattle.fault_texts.specs.Explanations.{explained_by, explanation, explanation_of};

use crate::cut::{CutLine, blank_of, cut_line, width_of};
use crate::place::place_of;
use std::alloc::{AllocError, Global};

/// Where a file is refused, by line and column; what is shown of its line there; a mark under the place; and what is wrong. Each stands on a
/// line, and the last one has no end. Bytes of the line that are no text are shown as U+FFFD, and columns count the characters that are shown.
/// A line of over 100 characters is cut to 48 in front of the place and 48 from there on, with `..` for those that are left out.
pub fn explained(
    alloc: Global,
    path: &str,
    text: &[u8],
    offset: usize,
    sentence: &str,
) -> Result<String, AllocError>
    ensures { IfOk result (λ told. string_bytes told ≡ explanation path.now text.now offset sentence.now) }
{
    let place = place_of(text, offset);
    let front = String::from_utf8_lossy(alloc, &text[place.begin..place.at])?;
    let behind = String::from_utf8_lossy(alloc, &text[place.at..place.end])?;
    explained_by(alloc, path, place.line, &front, &behind, sentence)
}

/// The same of the parts of the line up to the place and from there on, as they are shown whole.
fn explained_by(
    alloc: Global,
    path: &str,
    line: usize,
    front: &str,
    behind: &str,
    sentence: &str,
) -> Result<String, AllocError>
    ensures { IfOk result (λ told. string_bytes told ≡ explained_by path.now line front.now behind.now sentence.now) }
{
    let front_width = width_of(alloc, front)?;
    let behind_width = width_of(alloc, behind)?;
    let shown = cut_line(alloc, front, front_width, behind, behind_width)?;
    explanation_of(alloc, path, line, front_width + 1, &shown, sentence)
}

/// The same of what is shown; the place is at this column.
fn explanation_of(
    alloc: Global,
    path: &str,
    line: usize,
    column: usize,
    shown: &CutLine,
    sentence: &str,
) -> Result<String, AllocError>
    ensures { IfOk result (λ told. string_bytes told ≡ explanation_of path.now line column (string_bytes shown.now.front) (string_bytes shown.now.behind) sentence.now) }
{
    let blank = blank_of(alloc, shown.front.as_bytes())?;
    let seen = format!(in alloc; "{}{}", shown.front, shown.behind)?;
    format!(in alloc; "{path}:{line}:{column}\n{seen}\n{blank}^\n{sentence}")
}
