//! Takes tokens one by one, and says what is wrong with one that cannot stand.

ghost use Rattle.std.specs.Prelude.{◌≡◌, Ok, ◌+◌, ◌∷◌, [], ◌++◌, List, ℕ, Option, None, Some, MatchResult, length, IfOk, ◌<◌};
ghost use Rattle.std.specs.String.{string_bytes};
ghost use Rattle.spec_reader.specs.declared.error.Stop.TheVariants.{Short};
ghost use Rattle.spec_reader.specs.Lexing.{view_token, view, views};
ghost use Rattle.spec_reader.specs.Tree.{BlockTree, StepTree, HeadTree, SessionTree, FrontTree, SpecTree};
ghost use Rattle.spec_reader.specs.Reading.{reads, refused, no_session, no_step, as_name, as_block, Head as HeadPlace, HeadSetup, HeadTeardown, Headed, HeadedSetup, HeadedTeardown, LastTeardown, Sessioned, Whole, made_session};
ghost use Rattle.spec_reader.specs.Views.{block_tree, Reads, Takes};

use crate::error::{Kind, SpecError, Stop};
use crate::quoted::undoubled;
use crate::token::{Placed, Token};
use crate::tree::Block;
use std::alloc::Global;

/// The fault of a token that cannot stand here.
pub fn refused(token: &Token) -> Kind
    ensures { result ≡ refused (view_token token.now) }
{
    match token {
        Token::NoToken => Kind::BadToken,
        Token::NotClosed => Kind::Unclosed,
        _ => Kind::Misplaced,
    }
}

/// The same where the first session is required.
pub fn no_session(token: &Token) -> Kind
    ensures { result ≡ no_session (view_token token.now) }
{
    if token.is_end() || token.is_permutation() {
        Kind::NoStep
    } else {
        refused(token)
    }
}

/// The same where the first step of a session is required.
pub fn no_step(token: &Token) -> Kind
    ensures { result ≡ no_step (view_token token.now) }
{
    if token.is_session() {
        Kind::NoStep
    } else {
        no_session(token)
    }
}

/// The first token and the others.
pub fn first<'a, 't>(tokens: &'t [Placed<'a>]) -> Result<(Placed<'a>, &'t [Placed<'a>]), Stop>
    ensures { MatchResult result (λ x. tokens.now ≡ x.0 ∷ x.1.now) (λ e. (e ≡ Short) × (tokens.now ≡ [])) }
{
    match tokens {
        [] => Err(Stop::Short),
        [token, rest @ ..] => Ok((*token, rest)),
    }
}

/// A token and those after it, as one value.
pub fn standing<'a, 't>(
    token: Placed<'a>,
    tokens: &'t [Placed<'a>],
) -> (Placed<'a>, &'t [Placed<'a>])
    ensures token { result.0 ≡ token.entry }
    ensures tokens { result.1.now ≡ tokens.now }
{
    (token, tokens)
}

/// Tests that no token comes after the end.
pub fn nothing_after(tokens: &[Placed]) -> Result<(), Stop>
    ensures { (f : SpecTree) → Reads (λ _. Ok f) result (reads (Whole f) (views tokens.now)) }
{
    match tokens {
        [] => Ok(()),
        [token, ..] => Err(fault(token, refused(&token.token))),
    }
}

pub fn fault(token: &Placed, kind: Kind) -> Stop
    ensures { result ≡ Stop.Fault (record { kind = kind; offset = token.now.at }) }
{
    Stop::Fault(SpecError {
        kind,
        offset: token.at,
    })
}

/// The name that this token is.
pub fn name_of(alloc: Global, token: &Placed) -> Result<String, Stop>
    ensures { Takes string_bytes token.now.at result (as_name (view_token token.now.token)) }
{
    match token.token {
        Token::Name(name) => Ok(String::from_str(alloc, name)?),
        Token::Quoted(name) => Ok(undoubled(alloc, name)?),
        _ => Err(fault(token, refused(&token.token))),
    }
}

pub fn block_of(alloc: Global, token: &Placed) -> Result<Block, Stop>
    ensures { Takes block_tree token.now.at result (as_block (view_token token.now.token)) }
{
    match token.token {
        Token::Body(at, text) => Ok(Block {
            at,
            text: String::from_str(alloc, text)?,
        }),
        _ => Err(fault(token, refused(&token.token))),
    }
}

/// A block, and the token after it.
pub fn block_then<'a, 't>(
    alloc: Global,
    tokens: &'t [Placed<'a>],
) -> Result<(Block, Placed<'a>, &'t [Placed<'a>]), Stop>
    ensures head_setup { (bs : List BlockTree) →
        Reads (λ x. reads (HeadPlace (bs ++ block_tree x.0 ∷ []) None) (view x.1 ∷ views x.2.now))
        result (reads (HeadSetup bs) (views tokens.now)) }
    ensures head_teardown { (bs : List BlockTree) →
        Reads (λ x. reads (HeadPlace bs (Some (block_tree x.0))) (view x.1 ∷ views x.2.now))
        result (reads (HeadTeardown bs) (views tokens.now)) }
    ensures setup { (f : FrontTree) (ss : List SessionTree) (n : List ℕ) →
        Reads (λ x. reads (Headed f ss n (Some (block_tree x.0)) None) (view x.1 ∷ views x.2.now))
        result (reads (HeadedSetup f ss n) (views tokens.now)) }
    ensures teardown { (f : FrontTree) (ss : List SessionTree) (n : List ℕ) (s : Option BlockTree) →
        Reads (λ x. reads (Headed f ss n s (Some (block_tree x.0))) (view x.1 ∷ views x.2.now))
        result (reads (HeadedTeardown f ss n s) (views tokens.now)) }
    ensures last { (f : FrontTree) (ss : List SessionTree) (h : HeadTree) (steps : List StepTree) →
        Reads (λ x. reads (Sessioned f (ss ++ made_session h steps (Some (block_tree x.0)) ∷ []))
        (view x.1 ∷ views x.2.now))
        result (reads (LastTeardown f ss h steps) (views tokens.now)) }
    ensures shorter { IfOk result (λ x. length x.2.now < length tokens.now) }
{
    let (token, rest) = first(tokens)?;
    let block = block_of(alloc, &token)?;
    let (next, rest) = first(rest)?;
    Ok((block, next, rest))
}
