//! Cuts a block into tokens.

ghost use Rattle.std.specs.Prelude.{◌≡◌, ◌==◌, ◌&&◌, not, take, IfSome, ℕ, List, ◌∷◌, ◌*◌, ◌-◌, min, ◌+◌, ◌<◌, ◌≤◌, ◌^◌, length, drop, slice_index, take_while, option_map, false};
ghost use Rattle.std.specs.List.{prefix_len};
ghost use Rattle.byte_runs.specs.Bytes.{in_class};
ghost use Rattle.sql_grammar.specs.Tokens.{Token as Seen, End};
ghost use Rattle.sql_grammar.specs.Lexing.{begins_comment, is_pair, is_one_of, reserved_to_n, reserved_from_o, is_reserved, is_sign, value_of, quoted, text_of, sign_of, word_piece, number_piece, piece_of, view_piece, view_token, piece_of-end};

use crate::token::Token;
use byte_runs::{Class, Cut, Piece, after_first, run_len, run_of};

/// Where the value of a number is no longer told apart.
const PAST_I64: u64 = (1 << 63) + 1;

/// The value with one digit more, or 2^63 + 1 where it is more.
fn with_digit(value: u64, digit: u8) -> u64
    ensures { result ≡ min (10 * value + (digit - 48)) (2 ^ 63 + 1) }
{
    let more = 10 * value as u128 + digit.saturating_sub(b'0') as u128;
    if more < PAST_I64 as u128 {
        more as u64
    } else {
        PAST_I64
    }
}

/// The value of digits, or 2^63 + 1 where it is more.
fn value_of(digits: &[u8]) -> u64
    ensures { result ≡ value_of 0 digits.now }
{
    let mut value = 0;
    for digit in digits {
        value = with_digit(value, *digit);
    }
    value
}

// Whether a byte stands behind a text, where the one before was a quote that another one may double.
fn is_behind(after: bool, byte: u8) -> bool
    ensures { result ≡ (after && not (byte == 39)) }
{
    after && byte != b'\''
}

// Whether the byte is a quote that another one may double.
fn may_double(after: bool, byte: u8) -> bool
    ensures { result ≡ ((byte == 39) && not after) }
{
    byte == b'\'' && !after
}

/// How many bytes a text takes behind its opening quote, with the closing one.
#[tactic(auto, using(crate::proofs::Pieces::len_steps))]
pub fn quoted_len(bytes: &[u8]) -> Option<usize>
    ensures len { result ≡ option_map (λ x. x.1) (quoted false bytes.now) }
    ensures within { IfSome result (λ len. len ≤ length bytes.now) }
{
    let mut after = false;
    for (n, byte) in bytes.iter().enumerate() {
        if is_behind(after, *byte) {
            return Some(n);
        }
        after = may_double(after, *byte);
    }
    if after { Some(bytes.len()) } else { None }
}

/// A text, of what follows its opening quote.
fn text_of(after: &str) -> Piece<Token<'_>>
    ensures { view_piece result ≡ text_of after.now }
{
    match quoted_len(after.as_bytes()) {
        Some(len) => Piece::Next(Token::Text(after), len + 1),
        None => Piece::Last(Token::NotClosed),
    }
}

fn is_pair(first: u8, second: u8) -> bool
    ensures { result ≡ is_pair first second }
{
    (first == b'<' && (second == b'>' || second == b'='))
        || ((first == b'!' || first == b'>') && second == b'=')
}

fn is_sign(byte: u8) -> bool
    ensures { result ≡ is_sign byte }
{
    matches!(
        byte,
        b'(' | b')' | b',' | b';' | b'*' | b'+' | b'-' | b'=' | b'<' | b'>'
    )
}

/// The front of the text up to a byte that is a whole character.
fn up_to(text: &str, last: usize) -> &str
    requires within { last < length text.now }
    requires ascii { slice_index text.now last < 128 }
    ensures { result.now ≡ take (last + 1) text.now }
{
    let (front, _) = text.split_at(last + 1);
    front
}

/// A sign of one or two characters, which the text begins with.
#[tactic(auto, using(crate::proofs::Pieces::signs_are_ascii))]
fn sign_of(text: &str) -> Piece<Token<'_>>
    ensures { (b : ℕ) (bs : List ℕ) → text.now ≡ b ∷ bs → view_piece result ≡ sign_of b bs }
{
    match text.as_bytes() {
        [first, second, ..] if is_pair(*first, *second) => {
            Piece::Next(Token::Sign(up_to(text, 1)), 2)
        }
        [first, ..] if is_sign(*first) => Piece::Next(Token::Sign(up_to(text, 0)), 1),
        _ => Piece::Last(Token::NoToken),
    }
}

fn begins_comment(bytes: &[u8]) -> bool
    ensures { result ≡ begins_comment bytes.now }
{
    matches!(bytes, [b'-', b'-', ..])
}

fn is_reserved_to_n(word: &str) -> bool
    ensures { result ≡ is_one_of reserved_to_n word.now }
{
    word.eq_ignore_ascii_case("and")
        || word.eq_ignore_ascii_case("asc")
        || word.eq_ignore_ascii_case("by")
        || word.eq_ignore_ascii_case("desc")
        || word.eq_ignore_ascii_case("from")
        || word.eq_ignore_ascii_case("in")
        || word.eq_ignore_ascii_case("into")
        || word.eq_ignore_ascii_case("not")
}

fn is_reserved_from_o(word: &str) -> bool
    ensures { result ≡ is_one_of reserved_from_o word.now }
{
    word.eq_ignore_ascii_case("or")
        || word.eq_ignore_ascii_case("order")
        || word.eq_ignore_ascii_case("primary")
        || word.eq_ignore_ascii_case("select")
        || word.eq_ignore_ascii_case("set")
        || word.eq_ignore_ascii_case("table")
        || word.eq_ignore_ascii_case("values")
        || word.eq_ignore_ascii_case("where")
}

/// Whether the word is no name, in any case.
fn is_reserved(word: &str) -> bool
    ensures { result ≡ is_reserved word.now }
{
    is_reserved_to_n(word) || is_reserved_from_o(word)
}

fn word_piece(text: &str) -> Piece<Token<'_>>
    ensures { view_piece result ≡ word_piece text.now }
{
    let (word, _) = run_of(Class::Word, text);
    let token = if is_reserved(word) {
        Token::Key(word)
    } else {
        Token::Word(word)
    };
    Piece::Next(token, word.len())
}

fn number_piece(text: &str) -> Piece<Token<'_>>
    ensures { view_piece result ≡ number_piece text.now }
{
    let (digits, _) = run_of(Class::Digit, text);
    Piece::Next(Token::Number(value_of(digits.as_bytes())), digits.len())
}

/// What stands at the front of the text.
#[tactic(auto, unfolding(crate::specs::Lexing::piece_of))]
fn piece_of(text: &str) -> Piece<Token<'_>>
    ensures { view_piece result ≡ piece_of text.now }
{
    let [b, ..] = text.as_bytes() else {
        return Piece::Last(Token::End);
    };
    let b = *b;
    if b == b' ' || b == b'\t' || b == b'\r' || b == b'\x0c' || b == b'\n' {
        Piece::Blank(1)
    } else if begins_comment(text.as_bytes()) {
        Piece::Blank(run_len(Class::Comment, text.as_bytes()))
    } else if b.is_ascii_alphabetic() || b == b'_' {
        word_piece(text)
    } else if b.is_ascii_digit() {
        number_piece(text)
    } else if b == b'\'' {
        text_of(after_first(text))
    } else {
        sign_of(text)
    }
}

impl<'a> Cut<'a> for Token<'a> {
    ghost Seen = { Seen };

    ghost view = { view_token };

    ghost piece_of = { λ at. piece_of };

    ghost end = { End };

    ghost ended = { piece_of-end };

    fn piece_of(_at: usize, text: &'a str) -> Piece<Token<'a>> {
        piece_of(text)
    }
}
