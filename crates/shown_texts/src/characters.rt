//! Lines of characters, and what is put behind them.

ghost use Rattle.std.specs.Prelude.{◌≡◌, ◌≤◌, ℕ, ◌++◌, OnOk, decimal, length, take};
ghost use Rattle.std.specs.Int.{is_in_range};
ghost use Rattle.std.specs.Char.Escape.{escape_unicode};
ghost use Rattle.shown_texts.specs.Characters as spec;

use itoa::Buffer;
use sqlite_items::Items;
use std::alloc::AllocError;

/// Puts a text of ASCII behind a line. Of another text each byte is put as the character of that number. It fails for want of memory
/// alone, as do all calls that put something behind a line.
pub fn put(line: &mut Items<char>, text: &str) -> Result<(), AllocError>
    ensures { OnOk result (line.new ≡ line.old ++ text.now) }
{
    for byte in text.as_bytes() {
        line.push(char::from(*byte))?;
    }
    Ok(())
}

/// Puts characters behind a line.
pub fn put_line(line: &mut Items<char>, more: &[char]) -> Result<(), AllocError>
    ensures { OnOk result (line.new ≡ line.old ++ more.now) }
{
    for c in more {
        line.push(*c)?;
    }
    Ok(())
}

/// Puts a number behind a line.
pub fn put_number(line: &mut Items<char>, number: u64) -> Result<(), AllocError>
    ensures { OnOk result (line.new ≡ line.old ++ decimal number) }
{
    put(line, Buffer::new().format(number))
}

/// Puts a size behind a line.
pub(crate) fn put_size(line: &mut Items<char>, size: usize) -> Result<(), AllocError>
    ensures { OnOk result (line.new ≡ line.old ++ decimal size) }
{
    put(line, Buffer::new().format(size))
}

/// Puts blanks behind a line.
pub fn put_blanks(line: &mut Items<char>, count: usize) -> Result<(), AllocError>
    ensures { OnOk result (line.new ≡ line.old ++ spec.blanks count) }
{
    for _ in 0..count {
        line.push(' ')?;
    }
    Ok(())
}

/// Puts characters behind a line, filled with blanks to a width.
pub(crate) fn put_padded(
    line: &mut Items<char>,
    width: usize,
    more: &[char],
) -> Result<(), AllocError>
    ensures { OnOk result (line.new ≡ line.old ++ spec.padded width more.now) }
{
    put_line(line, more)?;
    put_blanks(line, width.saturating_sub(more.len()))
}

/// Puts a text as it is shown behind a line.
pub fn put_shown(line: &mut Items<char>, text: &str) -> Result<(), AllocError>
    ensures { OnOk result (line.new ≡ line.old ++ spec.shown_text text.now) }
{
    for c in text.chars() {
        put_visible(line, c)?;
    }
    Ok(())
}

/// Puts a character behind a line, by its number where it is hidden.
fn put_visible(line: &mut Items<char>, c: char) -> Result<(), AllocError>
    ensures { OnOk result (line.new ≡ line.old ++ spec.visible c) }
{
    if is_hidden(c) {
        return put_escaped(line, c);
    }
    line.push(c)
}

/// Puts the number of a character behind a line.
fn put_escaped(line: &mut Items<char>, c: char) -> Result<(), AllocError>
    ensures { OnOk result (line.new ≡ line.old ++ escape_unicode c) }
{
    for part in c.escape_unicode() {
        line.push(part)?;
    }
    Ok(())
}

/// Whether a character shows nothing, or steers a terminal.
fn is_hidden(c: char) -> bool
    ensures { result ≡ spec.is_hidden c }
{
    c.is_control() || is_joining(u32::from(c)) || is_empty(u32::from(c))
}

/// Whether a character says how those beside it are joined, shaped or ordered.
fn is_joining(c: u32) -> bool
    ensures { result ≡ spec.is_joining c }
{
    c == 0x34f
        || c == 0x61c
        || is_in(0x17b4, 0x17b5, c)
        || is_in(0x180b, 0x180f, c)
        || is_in(0x200b, 0x200f, c)
        || is_in(0x2028, 0x202e, c)
        || is_in(0x2060, 0x206f, c)
        || is_in(0xfe00, 0xfe0f, c)
        || is_in(0xe0000, 0xe0fff, c)
}

/// Whether another character shows nothing.
fn is_empty(c: u32) -> bool
    ensures { result ≡ spec.is_empty c }
{
    c == 0xad
        || is_in(0x115f, 0x1160, c)
        || c == 0x3164
        || c == 0xfeff
        || c == 0xffa0
        || is_in(0xfff0, 0xfffb, c)
        || is_in(0x1bca0, 0x1bca3, c)
        || is_in(0x1d173, 0x1d17a, c)
}

fn is_in(low: u32, high: u32, c: u32) -> bool
    ensures { result ≡ is_in_range low high c }
{
    low <= c && c <= high
}

/// How many characters of a line stand before the blanks at its end.
pub(crate) fn trimmed_len(line: &[char]) -> usize
    ensures front { take result line.now ≡ spec.trimmed line.now }
    ensures len { result ≡ length (spec.trimmed line.now) }
    ensures within { result ≤ length line.now }
{
    let mut len = line.len();
    while len > 0 && line[len - 1] == ' ' {
        len -= 1;
    }
    len
}
