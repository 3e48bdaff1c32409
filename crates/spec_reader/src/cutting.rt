//! Cuts a text into tokens.

ghost use Rattle.std.specs.Prelude.{◌≡◌, ◌+◌, ◌<◌, ◌^◌, length};
ghost use Rattle.spec_reader.specs.Bytes.{word_of};
ghost use Rattle.spec_reader.specs.Tokens.{Token as Seen, End};
ghost use Rattle.spec_reader.specs.Lexing.{piece_of, block_of, quoted_of, word_piece, view_piece, view_token, sign_of, piece_of-end};

use crate::quoted::{has_quote_at, quoted_len};
use crate::token::Token;
use byte_runs::{Class, Cut, Piece, after_first, run_len, run_of};

/// A word of the grammar, or a plain name.
fn word_of(text: &str) -> Token<'_>
    ensures { view_token result ≡ word_of text.now }
{
    match text {
        "setup" => Token::SetupWord,
        "teardown" => Token::TeardownWord,
        "session" => Token::SessionWord,
        "step" => Token::StepWord,
        "permutation" => Token::PermutationWord,
        "notices" => Token::NoticesWord,
        _ => Token::Name(text),
    }
}

/// A word of the grammar or a plain name, which the text begins with.
fn word_piece(text: &str) -> Piece<Token<'_>>
    ensures { view_piece result ≡ word_piece text.now }
{
    let (word, _) = run_of(Class::Name, text);
    Piece::Next(word_of(word), word.len())
}

/// A block, of the text after its opening sign, which stands at this offset.
fn block_of(at: usize, text: &str) -> Piece<Token<'_>>
    requires { at + length text.now + 1 < 2 ^ 63 }
    ensures { view_piece result ≡ block_of at text.now }
{
    let (body, rest) = run_of(Class::Block, text);
    if rest.is_empty() {
        Piece::Last(Token::NotClosed)
    } else {
        Piece::Next(Token::Body(at + 1, body), body.len() + 2)
    }
}

/// A quoted name, of the text after its opening quote.
fn quoted_of(text: &str) -> Piece<Token<'_>>
    requires { length text.now < 2 ^ 63 }
    ensures { view_piece result ≡ quoted_of text.now }
{
    let len = quoted_len(text.as_bytes());
    if !has_quote_at(text.as_bytes(), len) {
        return Piece::Last(Token::NotClosed);
    }
    if len == 0 {
        return Piece::Last(Token::NoToken);
    }
    let (name, _) = text.split_at(len);
    Piece::Next(Token::Quoted(name), len + 2)
}

/// A sign of one byte.
fn sign_of<'a>(b: u8) -> Piece<Token<'a>>
    ensures { view_piece result ≡ sign_of b }
{
    match b {
        b'(' => Piece::Next(Token::Open, 1),
        b')' => Piece::Next(Token::Close, 1),
        b',' => Piece::Next(Token::Comma, 1),
        b'*' => Piece::Next(Token::Star, 1),
        _ => Piece::Last(Token::NoToken),
    }
}

/// What stands at the front of the text at this offset.
#[tactic(auto, unfolding(crate::specs::Lexing::piece_of))]
fn piece_of(at: usize, text: &str) -> Piece<Token<'_>>
    requires { at + length text.now < 2 ^ 63 }
    ensures { view_piece result ≡ piece_of at text.now }
{
    let [b, ..] = text.as_bytes() else {
        return Piece::Last(Token::End);
    };
    let b = *b;
    if b == b' ' || b == b'\t' || b == b'\r' || b == b'\x0c' || b == b'\n' {
        Piece::Blank(1)
    } else if b.is_ascii_alphabetic() || b == b'_' || b >= 128 {
        word_piece(text)
    } else if b == b'{' {
        block_of(at, after_first(text))
    } else if b.is_ascii_digit() {
        Piece::Next(Token::Number, run_len(Class::Digit, text.as_bytes()))
    } else if b == b'#' {
        Piece::Blank(run_len(Class::Comment, text.as_bytes()))
    } else if b == b'"' {
        quoted_of(after_first(text))
    } else {
        sign_of(b)
    }
}

impl<'a> Cut<'a> for Token<'a> {
    ghost Seen = { Seen };

    ghost view = { view_token };

    ghost piece_of = { piece_of };

    ghost end = { End };

    ghost ended = { piece_of-end };

    fn piece_of(at: usize, text: &'a str) -> Piece<Token<'a>> {
        piece_of(at, text)
    }
}
