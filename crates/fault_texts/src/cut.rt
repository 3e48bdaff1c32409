//! What is shown of a line that is long: a part of it round a place.

ghost use Rattle.std.specs.Prelude.{◌≡◌, ◌∷◌, ◌+◌, ◌<◌, ◌^◌, [], IfOk, nat_lt, string_bytes};
ghost use Rattle.std.specs.Str.{IsCharBoundary};
ghost use Rattle.fault_texts.specs.Cutting.{blank, bytes_of, cut_front, cut_behind, ends, front_shown, behind_shown, is_start, left_behind, width};

use crate::{MAX_BESIDE, MAX_SHOWN};
use std::alloc::{AllocError, Global};

/// What is shown of a line, with `..` on the sides that are cut.
#[derive(Drop)]
pub(crate) struct CutLine {
    /// Up to a place.
    pub(crate) front: String,
    /// From the place on.
    pub(crate) behind: String,
}

/// What is shown of a line, of which these are the texts up to a place and from there on, with as many characters.
pub(crate) fn cut_line(
    alloc: Global,
    front: &str,
    front_width: usize,
    behind: &str,
    behind_width: usize,
) -> Result<CutLine, AllocError>
    requires front { front_width ≡ width front.now }
    requires behind { behind_width ≡ width behind.now }
    requires small { (front_width < 2 ^ 63) × (behind_width < 2 ^ 63) }
    ensures front { IfOk result (λ cut. string_bytes cut.front ≡ front_shown front.now behind.now) }
    ensures behind { IfOk result (λ cut. string_bytes cut.behind ≡ behind_shown front.now behind.now) }
{
    if is_long(front_width, behind_width) {
        let front = cut_front(alloc, front, front_width)?;
        let behind = cut_behind(alloc, behind, behind_width)?;
        return Ok(CutLine { front, behind });
    }
    let front = String::from_str(alloc, front)?;
    let behind = String::from_str(alloc, behind)?;
    Ok(CutLine { front, behind })
}

fn is_long(front: usize, behind: usize) -> bool
    requires { (front < 2 ^ 63) × (behind < 2 ^ 63) }
    ensures { result ≡ nat_lt MAX_SHOWN (front + behind) }
{
    front + behind > MAX_SHOWN
}

fn cut_front(alloc: Global, front: &str, front_width: usize) -> Result<String, AllocError>
    requires { front_width ≡ width front.now }
    ensures { IfOk result (λ cut. string_bytes cut ≡ cut_front front.now) }
{
    if front_width <= MAX_BESIDE {
        return String::from_str(alloc, front);
    }
    let (_, rest) = front.split_at(bytes_of(front.as_bytes(), front_width - MAX_BESIDE));
    format!(in alloc; "..{rest}")
}

fn cut_behind(alloc: Global, behind: &str, behind_width: usize) -> Result<String, AllocError>
    requires { behind_width ≡ width behind.now }
    ensures { IfOk result (λ cut. string_bytes cut ≡ cut_behind behind.now) }
{
    if behind_width <= MAX_BESIDE {
        return String::from_str(alloc, behind);
    }
    let (first, _) = behind.split_at(bytes_of(behind.as_bytes(), MAX_BESIDE));
    format!(in alloc; "{first}..")
}

/// How many bytes the first characters of a text take, so many of them.
fn bytes_of(text: &[u8], characters: usize) -> usize
    ensures bytes { result ≡ bytes_of characters text.now }
    ensures boundary { IsCharBoundary text.now result }
{
    let mut left = characters;
    for (n, byte) in text.iter().enumerate() {
        if ends(left, *byte) {
            return n;
        }
        left = left_behind(left, *byte);
    }
    text.len()
}

/// Whether no byte of the first characters, of which so many are left, stands here any more.
fn ends(left: usize, byte: u8) -> bool
    ensures { result ≡ ends left byte }
{
    left == 0 && is_start(byte)
}

/// How many of the characters are left behind this byte.
fn left_behind(left: usize, byte: u8) -> usize
    ensures { result ≡ left_behind left byte }
{
    if is_start(byte) {
        left.saturating_sub(1)
    } else {
        left
    }
}

/// White space as wide as the characters of these bytes: tabs as they are, and a space for each other one.
pub(crate) fn blank_of(alloc: Global, shown: &[u8]) -> Result<String, AllocError>
    ensures { IfOk result (λ white. string_bytes white ≡ blank shown.now) }
{
    let mut white = String::new(alloc);
    for byte in shown {
        white.push_str(blank_for(*byte))?;
    }
    Ok(white)
}

/// How many characters a text has.
pub(crate) fn width_of(alloc: Global, shown: &str) -> Result<usize, AllocError>
    ensures width { IfOk result (λ n. n ≡ width shown.now) }
    ensures small { IfOk result (λ n. n < 2 ^ 63) }
{
    let white = blank_of(alloc, shown.as_bytes())?;
    Ok(white.len())
}

/// What stands in the mark's line for a byte.
fn blank_for(byte: u8) -> &'static str
    ensures { result.now ≡ blank (byte ∷ []) }
{
    if byte == b'\t' {
        return "\t";
    }
    if is_start(byte) {
        return " ";
    }
    ""
}

/// Whether a character begins with this byte.
fn is_start(byte: u8) -> bool
    ensures { result ≡ is_start byte }
{
    byte < 128 || byte >= 192
}
