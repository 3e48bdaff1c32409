//! JSON strings that may stand in the script of a page, and what else is pushed to a text.

ghost use Rattle.std.specs.Prelude.{◌≡◌, ◌++◌, ◌∷◌, ◌<◌, ◌≤◌, IfOk, OnOk, decimal, length};
ghost use Rattle.std.specs.Char.{digit_char as digit_char_of};
ghost use Rattle.json.specs.Print.{escape_byte, escape_letter as letter_of};
ghost use Rattle.shown_values.specs.Strings as spec;

use itoa::Buffer;
use lock_modes::Text;
use std::alloc::AllocError;

/// Pushes a part to a text.
pub fn push(part: &str, out: &mut Vec<u8>) -> Result<(), AllocError>
    ensures { OnOk result (out.new.items ≡ out.old.items ++ part.now) }
{
    out.extend_from_slice(part.as_bytes())
}

/// Pushes a number in decimal.
pub fn push_number(number: u64, out: &mut Vec<u8>) -> Result<(), AllocError>
    ensures { OnOk result (out.new.items ≡ out.old.items ++ decimal number) }
{
    push(Buffer::new().format(number), out)
}

/// Pushes a label and the number behind it.
pub fn push_count(label: &str, number: u64, out: &mut Vec<u8>) -> Result<(), AllocError>
    ensures { OnOk result (out.new.items ≡ out.old.items ++ (label.now ++ decimal number)) }
{
    push(label, out)?;
    push_number(number, out)
}

/// Pushes a label and the number of a session or a step behind it.
pub fn push_index(label: &str, index: u8, out: &mut Vec<u8>) -> Result<(), AllocError>
    ensures { OnOk result (out.new.items ≡ out.old.items ++ (label.now ++ decimal index)) }
{
    push_count(label, u64::from(index), out)
}

/// Pushes a label and the word behind it.
pub fn push_word(label: &str, word: &str, out: &mut Vec<u8>) -> Result<(), AllocError>
    ensures { OnOk result (out.new.items ≡ out.old.items ++ (label.now ++ word.now)) }
{
    push(label, out)?;
    push(word, out)
}

/// Pushes what stands before the item at this place: a separator, but before the first one nothing.
pub fn push_before(separator: &str, place: usize, out: &mut Vec<u8>) -> Result<(), AllocError>
    ensures { OnOk result (out.new.items ≡ out.old.items ++ spec.before_item separator.now place) }
{
    if place == 0 {
        return Ok(());
    }
    push(separator, out)
}

/// Pushes a label and a name behind it, as a JSON string.
pub fn push_name(label: &str, name: &Text, out: &mut Vec<u8>) -> Result<(), AllocError>
    ensures { OnOk result (out.new.items ≡ out.old.items ++ (label.now ++ spec.string_json name.now)) }
{
    push_string(label, name.as_str().as_bytes(), out)
}

/// Pushes a label and a text behind it, as a JSON string.
pub fn push_string(label: &str, text: &[u8], out: &mut Vec<u8>) -> Result<(), AllocError>
    ensures { OnOk result (out.new.items ≡ out.old.items ++ (label.now ++ spec.string_json text.now)) }
{
    push_word(label, "\"", out)?;
    push_escaped(text, out)?;
    push("\"", out)
}

fn push_escaped(text: &[u8], out: &mut Vec<u8>) -> Result<(), AllocError>
    ensures { OnOk result (out.new.items ≡ out.old.items ++ spec.escaped text.now) }
{
    let mut left = text;
    while let [first, rest @ ..] = left {
        left = push_first(*first, rest, out)?;
    }
    Ok(())
}

/// Pushes what a text begins with, a line separator or another byte, and gives what is left of it.
fn push_first<'a>(first: u8, rest: &'a [u8], out: &mut Vec<u8>) -> Result<&'a [u8], AllocError>
    ensures pushed { IfOk result (λ left. out.new.items ++ spec.escaped left.now ≡ out.old.items ++ spec.escaped (first ∷ rest.now)) }
    ensures shorter { IfOk result (λ left. length left.now ≤ length rest.now) }
{
    match rest {
        [second, third, behind @ ..] => {
            if is_separator(first, *second, *third) {
                push(separator_text(*third), out)?;
                return Ok(behind);
            }
            push_byte(first, out)?;
            Ok(rest)
        }
        _ => {
            push_byte(first, out)?;
            Ok(rest)
        }
    }
}

/// Whether these are the bytes of a line separator, U+2028 or U+2029.
fn is_separator(a: u8, b: u8, c: u8) -> bool
    ensures { result ≡ spec.is_separator a b c }
{
    a == 226 && b == 128 && (c == 168 || c == 169)
}

/// The line separator with this last byte, by its number.
fn separator_text(last: u8) -> &'static str
    ensures { result.now ≡ spec.separator_text last }
{
    if last == 168 { "\\u2028" } else { "\\u2029" }
}

fn push_byte(byte: u8, out: &mut Vec<u8>) -> Result<(), AllocError>
    ensures { OnOk result (out.new.items ≡ out.old.items ++ spec.byte_text byte) }
{
    if is_markup(byte) {
        push_by_number(byte, out)
    } else {
        push_escape(byte, out)
    }
}

/// Whether this is what markup is made of.
fn is_markup(byte: u8) -> bool
    ensures { result ≡ spec.is_markup byte }
{
    byte == b'&' || byte == b'<' || byte == b'>'
}

/// Pushes a byte with the shortest escape, if it needs one.
#[tactic(auto, unfolding(json::specs::Print::escape_byte))]
fn push_escape(byte: u8, out: &mut Vec<u8>) -> Result<(), AllocError>
    ensures { OnOk result (out.new.items ≡ out.old.items ++ escape_byte byte) }
{
    let letter = escape_letter(byte);
    if letter > 0 {
        return out.extend_from_slice(&[b'\\', letter]);
    }
    if byte < 32 {
        return push_by_number(byte, out);
    }
    out.extend_from_slice(&[byte])
}

/// The letter of a byte's short escape, 0 where it has none.
fn escape_letter(byte: u8) -> u8
    ensures { result ≡ letter_of byte }
{
    match byte {
        b'"' | b'\\' => byte,
        8 => b'b',
        12 => b'f',
        b'\n' => b'n',
        b'\r' => b'r',
        b'\t' => b't',
        _ => 0,
    }
}

/// Pushes a byte by its number.
fn push_by_number(byte: u8, out: &mut Vec<u8>) -> Result<(), AllocError>
    ensures { OnOk result (out.new.items ≡ out.old.items ++ spec.by_number byte) }
{
    push("\\u00", out)?;
    out.extend_from_slice(&[digit_char(byte / 16), digit_char(byte % 16)])
}

/// A hexadecimal digit.
fn digit_char(digit: u8) -> u8
    requires { digit < 16 }
    ensures { result ≡ digit_char_of digit }
{
    if digit < 10 { 48 + digit } else { 87 + digit }
}
