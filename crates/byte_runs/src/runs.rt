ghost use Rattle.std.specs.Prelude.{◌≡◌, ◌+◌, ◌<◌, length, drop, slice_index, take_while};
ghost use Rattle.std.specs.List.{prefix_len};
ghost use Rattle.byte_runs.specs.Bytes.{in_class};

/// A set of bytes.
#[derive(Clone, Copy, PartialEq, Eq)]
pub enum Class {
    /// What a name of a spec file goes on with: letters, digits, `_`, `$` and bytes past ASCII.
    Name,
    /// What a word of SQL goes on with: letters, digits and `_`.
    Word,
    /// What a number goes on with.
    Digit,
    /// What a comment goes on with: only a line feed ends it.
    Comment,
    /// What a block goes on with: only a closing brace ends it.
    Block,
    /// What stands between double quotes.
    DoubleQuoted,
    /// What stands between single quotes.
    SingleQuoted,
}

/// Whether a byte is of the class.
fn is_in(class: Class, b: u8) -> bool
    ensures { result ≡ in_class class b }
{
    match class {
        Class::Name => b.is_ascii_alphabetic()
            || b == b'_'
            || b >= 128
            || b.is_ascii_digit()
            || b == b'$',
        Class::Word => b.is_ascii_alphabetic() || b == b'_' || b.is_ascii_digit(),
        Class::Digit => b.is_ascii_digit(),
        Class::Comment => b != b'\n',
        Class::Block => b != b'}',
        Class::DoubleQuoted => b != b'"',
        Class::SingleQuoted => b != b'\'',
    }
}

/// How many bytes at the front are of the class.
pub fn run_len(class: Class, bytes: &[u8]) -> usize
    ensures { result ≡ prefix_len (in_class class) bytes.now }
{
    let mut n = 0;
    while n < bytes.len() && is_in(class, bytes[n]) {
        n += 1;
    }
    n
}

/// The front of the text that is of the class, and what follows.
pub fn run_of(class: Class, text: &str) -> (&str, &str)
    ensures run { result.0.now ≡ take_while (in_class class) text.now }
    ensures len { length result.0.now ≡ prefix_len (in_class class) text.now }
    ensures rest { result.1.now ≡ drop (prefix_len (in_class class) text.now) text.now }
    ensures rest_len { length result.0.now + length result.1.now ≡ length text.now }
{
    text.split_at(run_len(class, text.as_bytes()))
}

/// What follows the first byte, which is a whole character.
pub fn after_first(text: &str) -> &str
    requires some { 0 < length text.now }
    requires ascii { slice_index text.now 0 < 128 }
    ensures { result.now ≡ drop 1 text.now }
{
    let (_, rest) = text.split_at(1);
    rest
}
