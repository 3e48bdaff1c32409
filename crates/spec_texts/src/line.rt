//! A block's text on one line.

ghost use Rattle.std.specs.Prelude.{◌≡◌, ◌∷◌, ◌++◌, ◌<◌, List, length, IfOk, IfSome, OnOk, string_bytes};
ghost use Rattle.spec_texts.specs.OneLine.{Part as Seen, after_gap, joined, one_line, part_of, parts_by, parts, separator};

use crate::shown::push_shown;
use byte_runs::{Cut, Piece};
use lock_modes::Text;
use sql_grammar::Token;
use std::alloc::{AllocError, Global};

/// A part of a block's text.
#[derive(Clone, Copy)]
pub(crate) enum Part<'a> {
    /// White space, or a comment.
    Gap,
    /// A token as it is written.
    Written(&'a str),
}

/// What stands on the line before a part.
#[derive(Clone, Copy)]
pub(crate) enum Before {
    /// No token yet.
    Nothing,
    /// A token.
    Token,
    /// A token, and white space or comments behind it.
    Gap,
}

/// The text of a block on one line.
pub(crate) fn one_line(alloc: Global, text: &str) -> Result<Text, AllocError>
    ensures { IfOk result (λ line. line ≡ one_line text.now) }
{
    let mut line = String::new(alloc);
    push_parts(&mut line, text)?;
    Ok(Text::from_string(line))
}

/// Puts a text behind the empty line.
fn push_parts(line: &mut String, text: &str) -> Result<(), AllocError>
    ensures { OnOk result (string_bytes line.new ≡ string_bytes line.old ++ one_line text.now) }
{
    let mut before = Before::Nothing;
    let mut rest = text;
    while let Some((part, after)) = next_part(rest) {
        before = push_part(line, before, part)?;
        rest = after;
    }
    Ok(())
}

/// The part that a text begins with, and what follows. None where no token is left.
fn next_part(text: &str) -> Option<(Part<'_>, &str)>
    ensures parts { parts text.now ≡ parts_by result }
    ensures shorter { IfSome result (λ x. length x.1.now < length text.now) }
{
    match Token::piece_of(0, text) {
        Piece::Blank(len) => {
            let (_, rest) = text.split_at(len);
            Some((Part::Gap, rest))
        }
        Piece::Next(_, len) => {
            let (token, rest) = text.split_at(len);
            Some((Part::Written(token), rest))
        }
        Piece::Last(_) => None,
    }
}

/// Puts a part behind a line, and gives what stands there before the next part.
fn push_part(line: &mut String, before: Before, part: Part<'_>) -> Result<Before, AllocError>
    ensures { (more : List Seen) → IfOk result (λ after. string_bytes line.new ++ joined after more
        ≡ string_bytes line.old ++ joined before (part_of part.entry ∷ more)) }
{
    match part {
        Part::Gap => Ok(after_gap(before)),
        Part::Written(token) => {
            line.push_str(separator(before))?;
            push_shown(line, token)?;
            Ok(Before::Token)
        }
    }
}

fn after_gap(before: Before) -> Before
    ensures { result ≡ after_gap before }
{
    match before {
        Before::Nothing => Before::Nothing,
        Before::Token => Before::Gap,
        Before::Gap => Before::Gap,
    }
}

fn separator(before: Before) -> &'static str
    ensures { result.now ≡ separator before }
{
    match before {
        Before::Nothing => "",
        Before::Token => "",
        Before::Gap => " ",
    }
}
