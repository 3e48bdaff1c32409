//! Values as they are written in a `row` line.

ghost use Rattle.std.specs.Prelude.{◌≡◌, false, option_map, IfOk};
ghost use Rattle.std.specs.Option.{option_copied};
ghost use Rattle.class_looks.specs.Values.{IsNumberOf, IsTextOf, IsInside, IsValueOf, undoubled};

use itoa::Buffer;
use lock_modes::{Text, Value};
use std::alloc::{AllocError, Global};

/// The value that is written so in a `row` line: a whole number of 64 bits in decimal, or a text in single quotes with those in it
/// doubled. There is none where no value is written so. It fails for want of memory alone.
pub fn value_of(alloc: Global, word: &str) -> Result<Option<Value>, AllocError>
    ensures { IfOk result (IsValueOf word.now) }
{
    if let Some(number) = number_of(word) {
        return Ok(Some(Value::Int(number)));
    }
    match text_of(alloc, word)? {
        Some(text) => Ok(Some(Value::Text(text))),
        None => Ok(None),
    }
}

/// The number that is written so. `parse` also takes a plus and zeros in front, with which no number is written.
fn number_of(word: &str) -> Option<i64>
    ensures { IsNumberOf word.now result }
{
    match word.parse::<i64>() {
        Ok(number) => {
            if Buffer::new().format(number) == word {
                Some(number)
            } else {
                None
            }
        }
        Err(_) => None,
    }
}

/// The text that is written so in quotes.
fn text_of(alloc: Global, word: &str) -> Result<Option<Text>, AllocError>
    ensures { IfOk result (IsTextOf word.now) }
{
    let Some(inner) = inside(word.as_bytes()) else {
        return Ok(None);
    };
    let Some(bytes) = undoubled(alloc, inner)? else {
        return Ok(None);
    };
    match str::from_utf8(&bytes) {
        Ok(text) => Ok(Some(Text::from_str(alloc, text)?)),
        Err(_) => Ok(None),
    }
}

/// What stands between a quote at the front and one at the end.
fn inside(word: &[u8]) -> Option<&[u8]>
    ensures { IsInside word.now (option_copied result) }
{
    match word {
        [b'\'', inner @ .., b'\''] => Some(inner),
        _ => None,
    }
}

/// The bytes with each two quotes that stand together once, or none where one stands alone.
fn undoubled(alloc: Global, bytes: &[u8]) -> Result<Option<Vec<u8>>, AllocError>
    ensures { IfOk result (λ found. option_map (λ text. text.items) found ≡ undoubled false bytes.now) }
{
    let mut text = Vec::new(alloc);
    let mut behind_quote = false;
    for byte in bytes {
        if behind_quote {
            if *byte != b'\'' {
                return Ok(None);
            }
            behind_quote = false;
            continue;
        }
        text.push(*byte)?;
        behind_quote = *byte == b'\'';
    }
    if behind_quote {
        Ok(None)
    } else {
        Ok(Some(text))
    }
}
