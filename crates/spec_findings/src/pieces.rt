//! The pieces of a block's text: statements with their semicolons, whether they can be read or not.

ghost use Rattle.std.specs.Prelude.{◌≡◌, ◌<◌, ◌+◌, IsUtf8, length, take, drop};
ghost use Rattle.std.specs.Str.{IsCharBoundary};

use byte_runs::{Cut, Piece};
use sql_grammar::Token;

/// The text up to the end of its first statement, with its semicolon, and what follows.
pub(crate) fn split_piece(text: &str) -> (&str, &str)
    requires { 0 < length text.now }
    ensures front { result.0.now ≡ take (length result.0.now) text.now }
    ensures back { result.1.now ≡ drop (length result.0.now) text.now }
    ensures some { 0 < length result.0.now }
    ensures whole { length result.0.now + length result.1.now ≡ length text.now }
{
    text.split_at(piece_len(text))
}

/// How many bytes the first statement takes, with its semicolon. Where no token can be cut, the next semicolon ends it, whatever it stands in.
fn piece_len(text: &str) -> usize
    ensures boundary { IsCharBoundary text.now result }
    ensures some { 0 < length text.now → 0 < result }
{
    let mut at = 0;
    let mut rest = text;
    'piece: loop {
        match Token::piece_of(0, rest) {
            Piece::Blank(len) => {
                let (_, after) = rest.split_at(len);
                at += len;
                rest = after;
            }
            Piece::Next(token, len) => {
                let (_, after) = rest.split_at(len);
                at += len;
                rest = after;
                if token.is_sign(";") {
                    return at;
                }
            }
            Piece::Last(_) => return at + semicolon_len(rest.as_bytes()),
        }
    }
}

/// How many bytes stand up to the first semicolon, and with it, or all where there is none.
fn semicolon_len(text: &[u8]) -> usize
    requires { IsUtf8 text.now }
    ensures boundary { IsCharBoundary text.now result }
    ensures some { 0 < length text.now → 0 < result }
{
    for (n, byte) in text.iter().enumerate() {
        if *byte == b';' {
            return n + 1;
        }
    }
    text.len()
}
