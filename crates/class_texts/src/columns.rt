//! Texts in columns.

ghost use Rattle.std.specs.Prelude.{◌≡◌, ◌++◌, OnOk};
ghost use Rattle.class_texts.specs.Pages as spec;

use shown_texts::{put, put_blanks, put_line};
use sqlite_items::Items;
use std::alloc::AllocError;

/// Puts a text behind a line, with two blanks in front of it and more to a width.
pub(crate) fn put_right(
    line: &mut Items<char>,
    width: usize,
    text: &[char],
) -> Result<(), AllocError>
    ensures { OnOk result (line.new ≡ line.old ++ spec.right width text.now) }
{
    put(line, "  ")?;
    put_blanks(line, width.saturating_sub(text.len()))?;
    put_line(line, text)
}
