//! Cuts a text into tokens.

ghost use Rattle.std.specs.Prelude.{◌≡◌, ℕ, List, [], length, IfOk, map, ◌+◌, ◌<◌, ◌^◌};
ghost use Rattle.byte_runs.specs.declared.pieces.Piece.{Piece};
ghost use Rattle.byte_runs.specs.declared.pieces.Piece.TheVariants as piece;
ghost use Rattle.byte_runs.specs.Pieces.{FitsIn, token_list, piece_by, placed_by};

use crate::pieces::{Piece, Placed};
use std::alloc::{AllocError, Global};

/// A token that borrows the text which it is cut from.
pub trait Cut<'a>: Copy {
    // what contracts see of a token, the piece in front of some bytes at an offset, and the token of a text's end
    ghost Seen: { Type 0 };

    ghost view: { Self → Seen };

    ghost piece_of: { ℕ → List ℕ → Piece Seen };

    ghost end: { Seen };

    // nothing is read behind the end
    ghost ended: { (at : ℕ) → piece_of at [] ≡ piece.Last end };

    /// What stands at the front of the text, which is at this offset.
    fn piece_of(at: usize, text: &'a str) -> Piece<Self>
        requires { at + length text.now < 2 ^ 63 }
        ensures piece { piece_by view result ≡ piece_of at text.now }
        ensures fits { FitsIn text.now (piece_by view result) };
}

/// The tokens of a text, up to its end or to a token after which nothing is read.
pub fn tokens_of<'a, T: Cut<'a>>(alloc: Global, text: &'a str) -> Result<Vec<Placed<T>>, AllocError>
    ensures { IfOk result (λ tokens. map (placed_by T.view) tokens.items ≡ token_list T.piece_of T.end text.now) }
{
    let mut tokens = Vec::new(alloc);
    let mut at = 0;
    let mut rest = text;
    loop {
        match T::piece_of(at, rest) {
            Piece::Blank(len) => {
                let (_, after) = rest.split_at(len);
                at += len;
                rest = after;
            }
            Piece::Next(token, len) => {
                tokens.push(Placed { at, token })?;
                let (_, after) = rest.split_at(len);
                at += len;
                rest = after;
            }
            Piece::Last(token) => {
                tokens.push(Placed { at, token })?;
                return Ok(tokens);
            }
        }
    }
}
