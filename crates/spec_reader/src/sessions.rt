//! Reads sessions and their steps.

ghost use Rattle.std.specs.Prelude.{◌≡◌, ◌+◌, ◌∷◌, [], ◌++◌, List, ℕ, Option, None, map, length, IfOk, false, ◌<◌};
ghost use Rattle.std.specs.String.{string_bytes};
ghost use Rattle.spec_reader.specs.Tokens.{is_step, is_session};
ghost use Rattle.spec_reader.specs.Lexing.{view_token, view, views};
ghost use Rattle.spec_reader.specs.Tree.{BlockTree, StepTree, HeadTree, SessionTree, FrontTree};
ghost use Rattle.spec_reader.specs.Reading.{reads, reads_set_up, reads_step_word, SessionBegun, Headed, StepBegun, StepNamed, Stepped, Sessioned, made_head, made_session};
ghost use Rattle.spec_reader.specs.Views.{step_tree, head_tree, session_tree, option_tree, Reads};

use crate::cursor::{block_of, block_then, fault, first, no_step, refused};
use crate::error::Stop;
use crate::known::{KnownSessions, KnownSteps};
use crate::names::{session_name, step_name};
use crate::token::Placed;
use crate::tree::{Block, Head, Session, Step};
use std::alloc::Global;

/// A step, after its name.
fn named_step<'a, 't>(
    alloc: Global,
    tokens: &'t [Placed<'a>],
    name: String,
) -> Result<(Step, &'t [Placed<'a>]), Stop>
    ensures reads { (f : FrontTree) (ss : List SessionTree) (h : HeadTree) (steps : List StepTree) →
        Reads (λ x. reads (Stepped f ss h (steps ++ step_tree x.0 ∷ [])) (views x.1.now)) result
        (reads (StepNamed f ss h steps (string_bytes name)) (views tokens.now)) }
    ensures shorter { IfOk result (λ x. length x.1.now < length tokens.now) }
{
    let (token, rest) = first(tokens)?;
    let block = block_of(alloc, &token)?;
    Ok((Step { name, block }, rest))
}

/// A step, after its first word.
fn step_of<'a, 't>(
    alloc: Global,
    tokens: &'t [Placed<'a>],
    sessions: &KnownSessions,
    steps: &KnownSteps,
) -> Result<(Step, &'t [Placed<'a>]), Stop>
    ensures reads { (f : FrontTree) (h : HeadTree) →
        Reads (λ x. reads (Stepped f sessions.now h (steps.now ++ step_tree x.0 ∷ [])) (views x.1.now))
        result (reads (StepBegun f sessions.now h steps.now) (views tokens.now)) }
    ensures shorter { IfOk result (λ x. length x.1.now < length tokens.now) }
{
    let (name, rest) = step_name(alloc, tokens, sessions, steps)?;
    named_step(alloc, rest, name)
}

/// The steps with one more, after its first word, and the token after it.
fn with_step<'a, 't>(
    alloc: Global,
    tokens: &'t [Placed<'a>],
    sessions: &KnownSessions,
    steps: KnownSteps,
) -> Result<(KnownSteps, Placed<'a>, &'t [Placed<'a>]), Stop>
    ensures reads { (f : FrontTree) (h : HeadTree) →
        Reads (λ x. reads (Stepped f sessions.now h x.0) (view x.1 ∷ views x.2.now))
        result (reads (StepBegun f sessions.now h steps) (views tokens.now)) }
    ensures shorter { IfOk result (λ x. length x.2.now < length tokens.now) }
{
    let (step, rest) = step_of(alloc, tokens, sessions, &steps)?;
    let steps = steps.with(alloc, step)?;
    let (next, rest) = first(rest)?;
    Ok((steps, next, rest))
}

/// The steps of a session, after the word of the first one, and the token after them, which begins no step.
fn steps_of<'a, 't>(
    alloc: Global,
    tokens: &'t [Placed<'a>],
    sessions: &KnownSessions,
) -> Result<(Vec<Step>, Placed<'a>, &'t [Placed<'a>]), Stop>
    ensures reads { (f : FrontTree) (h : HeadTree) →
        Reads (λ x. reads (Stepped f sessions.now h (map step_tree x.0.items))
        (view x.1 ∷ views x.2.now))
        result (reads (StepBegun f sessions.now h []) (views tokens.now)) }
    ensures after { IfOk result (λ x. is_step (view_token x.1.token) ≡ false) }
    ensures shorter { IfOk result (λ x. length x.2.now < length tokens.now) }
{
    let (mut steps, mut next, mut rest) = with_step(
        alloc,
        tokens,
        sessions,
        KnownSteps::new(alloc),
    )?;
    'steps: while next.token.is_step() {
        (steps, next, rest) = with_step(alloc, rest, sessions, steps)?;
    }
    Ok((steps.into_vec(), next, rest))
}

/// The setup of a session, if this token is its word, and the token after it.
fn setup_of<'a, 't>(
    alloc: Global,
    token: Placed<'a>,
    tokens: &'t [Placed<'a>],
) -> Result<(Option<Block>, Placed<'a>, &'t [Placed<'a>]), Stop>
    ensures reads { (f : FrontTree) (ss : List SessionTree) (n : List ℕ) →
        Reads (λ x. reads_set_up f ss n (option_tree x.0) (view x.1) (views x.2.now)) result
        (reads (Headed f ss n None None) (view token.entry ∷ views tokens.now)) }
    ensures shorter { IfOk result (λ x. length x.2.now < length tokens.now + 1) }
{
    if !token.token.is_setup() {
        return Ok((None, token, tokens));
    }
    let (block, next, rest) = block_then(alloc, tokens)?;
    Ok((Some(block), next, rest))
}

/// The teardown before the steps of a session, if this token is its word, and the token after it.
fn early_teardown<'a, 't>(
    alloc: Global,
    token: Placed<'a>,
    tokens: &'t [Placed<'a>],
) -> Result<(Option<Block>, Placed<'a>, &'t [Placed<'a>]), Stop>
    ensures reads { (f : FrontTree) (ss : List SessionTree) (n : List ℕ) (s : Option BlockTree) →
        Reads (λ x. reads_step_word f ss (made_head n s (option_tree x.0)) (view x.1) (views x.2.now))
        result (reads_set_up f ss n s (view token.entry) (views tokens.now)) }
    ensures shorter { IfOk result (λ x. length x.2.now < length tokens.now + 1) }
{
    if !token.token.is_teardown() {
        return Ok((None, token, tokens));
    }
    let (block, next, rest) = block_then(alloc, tokens)?;
    Ok((Some(block), next, rest))
}

/// The head of a session, after its first word, and the tokens after the word of its first step.
fn head_of<'a, 't>(
    alloc: Global,
    tokens: &'t [Placed<'a>],
    sessions: &KnownSessions,
) -> Result<(Head, &'t [Placed<'a>]), Stop>
    ensures reads { (f : FrontTree) →
        Reads (λ x. reads (StepBegun f sessions.now (head_tree x.0) []) (views x.1.now))
        result (reads (SessionBegun f sessions.now) (views tokens.now)) }
    ensures shorter { IfOk result (λ x. length x.1.now < length tokens.now) }
{
    let (name, rest) = session_name(alloc, tokens, sessions)?;
    let (token, rest) = first(rest)?;
    let (setup, token, rest) = setup_of(alloc, token, rest)?;
    let (teardown, token, rest) = early_teardown(alloc, token, rest)?;
    if !token.token.is_step() {
        return Err(fault(&token, no_step(&token.token)));
    }
    Ok((
        Head {
            name,
            setup,
            teardown,
        },
        rest,
    ))
}

/// The teardown after the steps of a session, if this token is its word, and the token after it.
fn late_teardown<'a, 't>(
    alloc: Global,
    head: &Head,
    token: Placed<'a>,
    tokens: &'t [Placed<'a>],
) -> Result<(Option<Block>, Placed<'a>, &'t [Placed<'a>]), Stop>
    requires { is_step (view_token token.token) ≡ false }
    ensures reads { (f : FrontTree) (ss : List SessionTree) (steps : List StepTree) →
        Reads (λ x. reads (Sessioned f (ss ++ made_session (head_tree head.now) steps (option_tree x.0) ∷ []))
        (view x.1 ∷ views x.2.now))
        result (reads (Stepped f ss (head_tree head.now) steps) (view token.entry ∷ views tokens.now)) }
    ensures shorter { IfOk result (λ x. length x.2.now < length tokens.now + 1) }
{
    if !token.token.is_teardown() {
        return Ok((None, token, tokens));
    }
    match head.teardown {
        Some(_) => Err(fault(&token, refused(&token.token))),
        None => {
            let (block, next, rest) = block_then(alloc, tokens)?;
            Ok((Some(block), next, rest))
        }
    }
}

/// A session, after its first word, and the token after it.
fn session_of<'a, 't>(
    alloc: Global,
    tokens: &'t [Placed<'a>],
    sessions: &KnownSessions,
) -> Result<(Session, Placed<'a>, &'t [Placed<'a>]), Stop>
    ensures reads { (f : FrontTree) →
        Reads (λ x. reads (Sessioned f (sessions.now ++ session_tree x.0 ∷ []))
        (view x.1 ∷ views x.2.now))
        result (reads (SessionBegun f sessions.now) (views tokens.now)) }
    ensures shorter { IfOk result (λ x. length x.2.now < length tokens.now) }
{
    let (head, rest) = head_of(alloc, tokens, sessions)?;
    let (steps, token, rest) = steps_of(alloc, rest, sessions)?;
    let (teardown, next, rest) = late_teardown(alloc, &head, token, rest)?;
    Ok((
        Session {
            head,
            steps,
            teardown,
        },
        next,
        rest,
    ))
}

/// The sessions with one more, after its first word, and the token after it.
fn with_session<'a, 't>(
    alloc: Global,
    tokens: &'t [Placed<'a>],
    sessions: KnownSessions,
) -> Result<(KnownSessions, Placed<'a>, &'t [Placed<'a>]), Stop>
    ensures reads { (f : FrontTree) →
        Reads (λ x. reads (Sessioned f x.0) (view x.1 ∷ views x.2.now))
        result (reads (SessionBegun f sessions) (views tokens.now)) }
    ensures shorter { IfOk result (λ x. length x.2.now < length tokens.now) }
{
    let (session, next, rest) = session_of(alloc, tokens, &sessions)?;
    let sessions = sessions.with(alloc, session)?;
    Ok((sessions, next, rest))
}

/// The sessions, after the first word of the first one, and the token after them.
pub fn sessions_of<'a, 't>(
    alloc: Global,
    tokens: &'t [Placed<'a>],
) -> Result<(KnownSessions, Placed<'a>, &'t [Placed<'a>]), Stop>
    ensures reads { (f : FrontTree) →
        Reads (λ x. reads (Sessioned f x.0) (view x.1 ∷ views x.2.now)) result
        (reads (SessionBegun f []) (views tokens.now)) }
    ensures after { IfOk result (λ x. is_session (view_token x.1.token) ≡ false) }
{
    let (mut sessions, mut next, mut rest) = with_session(
        alloc,
        tokens,
        KnownSessions::new(alloc),
    )?;
    'sessions: while next.token.is_session() {
        (sessions, next, rest) = with_session(alloc, rest, sessions)?;
    }
    Ok((sessions, next, rest))
}
