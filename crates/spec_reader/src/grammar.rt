//! Reads a spec file from its tokens: setups, a teardown, sessions and permutation lines.

ghost use Rattle.std.specs.Prelude.{◌≡◌, Ok, ◌∷◌, [], List, None, map, length, IfOk, false, ◌<◌};
ghost use Rattle.spec_reader.specs.Tokens.{is_setup};
ghost use Rattle.spec_reader.specs.Lexing.{view_token, view, views};
ghost use Rattle.spec_reader.specs.Tree.{BlockTree};
ghost use Rattle.spec_reader.specs.Reading.{reads, reads_session_word, Start, Head as HeadPlace, HeadSetup, SessionBegun, made_front};
ghost use Rattle.spec_reader.specs.Views.{block_tree, front_tree, file_tree, option_tree, Reads};

use crate::cursor::{block_then, fault, first, no_session};
use crate::error::Stop;
use crate::lines::lines_of;
use crate::sessions::sessions_of;
use crate::token::Placed;
use crate::tree::{Block, Front, Line, Session};
use std::alloc::Global;

/// Adds a setup, after its word, and gives the token after it.
fn push_setup<'a, 't>(
    alloc: Global,
    tokens: &'t [Placed<'a>],
    setups: &mut Vec<Block>,
) -> Result<(Placed<'a>, &'t [Placed<'a>]), Stop>
    ensures reads { Reads (λ x. reads (HeadPlace (map block_tree setups.new.items) None)
        (view x.0 ∷ views x.1.now))
        result (reads (HeadSetup (map block_tree setups.old.items)) (views tokens.now)) }
    ensures shorter { IfOk result (λ x. length x.1.now < length tokens.now) }
{
    let (block, next, rest) = block_then(alloc, tokens)?;
    setups.push(block)?;
    Ok((next, rest))
}

/// The teardown before the sessions, if this token is its word, and the token after it.
fn front_teardown<'a, 't>(
    alloc: Global,
    token: Placed<'a>,
    tokens: &'t [Placed<'a>],
) -> Result<(Option<Block>, Placed<'a>, &'t [Placed<'a>]), Stop>
    requires { is_setup (view_token token.token) ≡ false }
    ensures { (bs : List BlockTree) →
        Reads (λ x. reads_session_word (made_front bs (option_tree x.0)) (view x.1) (views x.2.now))
        result (reads (HeadPlace bs None) (view token.entry ∷ views tokens.now)) }
{
    if !token.token.is_teardown() {
        return Ok((None, token, tokens));
    }
    let (block, next, rest) = block_then(alloc, tokens)?;
    Ok((Some(block), next, rest))
}

/// What stands before the sessions, and the tokens after the word of the first session.
fn front_of<'a, 't>(
    alloc: Global,
    tokens: &'t [Placed<'a>],
) -> Result<(Front, &'t [Placed<'a>]), Stop>
    ensures { Reads (λ x. reads (SessionBegun (front_tree x.0) []) (views x.1.now))
        result (reads Start (views tokens.now)) }
{
    let mut setups = Vec::new(alloc);
    let (mut next, mut rest) = first(tokens)?;
    'setups: while next.token.is_setup() {
        (next, rest) = push_setup(alloc, rest, &mut setups)?;
    }
    let (teardown, word, rest) = front_teardown(alloc, next, rest)?;
    if !word.token.is_session() {
        return Err(fault(&word, no_session(&word.token)));
    }
    Ok((Front { setups, teardown }, rest))
}

/// The parts of the spec file that these tokens spell.
pub fn parts_of(alloc: Global, tokens: &[Placed]) -> Result<(Front, Vec<Session>, Vec<Line>), Stop>
    ensures { Reads (λ x. Ok (file_tree x.0 x.1.items x.2.items)) result (reads Start (views tokens.now)) }
{
    let (front, rest) = front_of(alloc, tokens)?;
    let (sessions, token, rest) = sessions_of(alloc, rest)?;
    let lines = lines_of(alloc, token, rest, &sessions)?;
    Ok((front, sessions.into_vec(), lines))
}
