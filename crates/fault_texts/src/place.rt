//! Where a byte of a text stands, as people count.

ghost use Rattle.std.specs.Prelude.{◌≡◌, ◌≤◌, ◌<◌, ◌+◌, ◌^◌, ℕ, List, [], ◌∷◌, ◌++◌, length, drop};
ghost use Rattle.fault_texts.specs.Places.{first_line, front, place};

use byte_runs::{Class, run_len};

/// Where a byte of a text stands. A line ends with a line feed, which is no part of it.
#[derive(Clone, Copy, PartialEq, Eq)]
pub struct Place {
    /// The number of the line, from 1.
    pub line: usize,
    /// The bytes in front of the line.
    pub begin: usize,
    /// The bytes in front of the place.
    pub at: usize,
    /// The bytes in front of the line's end.
    pub end: usize,
}

/// What the bytes in front of a place tell of it.
#[derive(Clone, Copy, PartialEq, Eq)]
struct Front {
    /// The number of the line that they end in.
    line: usize,
    /// How many of them stand on that line.
    bytes: usize,
}

/// The place of the byte at this offset. An offset past the text's end is that of its end.
pub fn place_of(text: &[u8], offset: usize) -> Place
    ensures place { result ≡ place text.now offset }
    ensures order { (result.begin ≤ result.at) × (result.at ≤ result.end) × (result.end ≤ length text.now) }
{
    let (before, behind) = text.split_at(offset.min(text.len()));
    let front = front_of(before);
    Place {
        line: front.line,
        begin: before.len() - front.bytes,
        at: before.len(),
        end: before.len() + line_len(behind),
    }
}

/// How many bytes stand in front of the first line end.
fn line_len(text: &[u8]) -> usize
    ensures is { result ≡ length (first_line text.now) }
    ensures within { result ≤ length text.now }
{
    run_len(Class::Comment, text)
}

/// What these bytes in front of a place tell of it.
fn front_of(before: &[u8]) -> Front
    ensures front { result ≡ front before.now }
    ensures bytes { result.bytes ≤ length before.now }
{
    let mut front = Front { line: 1, bytes: 0 };
    for byte in before {
        front = front.with(*byte);
    }
    front
}

impl Front {
    /// What these bytes and one more tell.
    fn with(self, byte: u8) -> Front
        requires small { (self.line < 2 ^ 63) × (self.bytes < 2 ^ 63) }
        ensures told { (before : List ℕ) → self ≡ front before → result ≡ front (before ++ byte ∷ []) }
        ensures small { (n : ℕ) → self.line ≤ n → self.bytes ≤ n → (result.line ≤ n + 1) × (result.bytes ≤ n + 1) }
    {
        if byte == b'\n' {
            return Front {
                line: self.line + 1,
                bytes: 0,
            };
        }
        Front {
            line: self.line,
            bytes: self.bytes + 1,
        }
    }
}
