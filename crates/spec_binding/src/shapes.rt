//! Which orders a spec file means: all words of its shape, or its lines.

ghost use Rattle.std.specs.Prelude.{◌≡◌, ◌<◌, ◌≤◌, map, length, option_map, MatchOption, IfOk, is_ok, Ok, None, Some, false};
ghost use Rattle.spec_reader.specs.Views.{session_tree, item_tree, line_tree};
ghost use Rattle.perm_ranks.specs.declared.TheConstants.{MAX_SESSIONS};
ghost use Rattle.perm_ranks.specs.Shape.{shape_of};
ghost use Rattle.perm_ranks.specs.Words.{total};
ghost use Rattle.bound_specs.specs.declared.TheConstants.{MAX_LINED_STEPS};
ghost use Rattle.bound_specs.specs.Lines.{counts_in, all_some, numbered_line};

use arrayvec::ArrayVec;
use binding_model::position;
use bound_specs::Line;
use lock_modes::Text;
use perm_ranks::{MAX_SESSIONS, Shape};
use spec_reader::{Item as ItemText, Line as LineText, MAX_ITEMS, Session as SessionText};
use std::alloc::{AllocError, Global};

/// How many steps the sessions have, if they are at most so many.
pub(crate) fn total_steps(sessions: &[SessionText], most: usize) -> Option<usize>
    requires { most < 1000 }
    ensures { MatchOption result
        (most < total (counts_in (map session_tree sessions.now)))
        (λ steps. (steps ≡ total (counts_in (map session_tree sessions.now))) × (steps ≤ most)) }
{
    let mut steps = 0;
    for session in sessions {
        if session.steps.len() > most - steps {
            return None;
        }
        steps += session.steps.len();
    }
    Some(steps)
}

/// How many steps each session has.
fn counts(sessions: &[SessionText]) -> ArrayVec<u8, MAX_SESSIONS>
    requires few { length sessions.now ≤ MAX_SESSIONS }
    requires small { total (counts_in (map session_tree sessions.now)) ≤ MAX_LINED_STEPS }
    ensures { result.items ≡ counts_in (map session_tree sessions.now) }
{
    let mut counts = ArrayVec::new();
    for session in sessions {
        counts.push(session.steps.len() as u8);
    }
    counts
}

/// The shape of the sessions, if they have one.
pub(crate) fn shape(sessions: &[SessionText]) -> Option<Shape>
    requires few { length sessions.now ≤ MAX_SESSIONS }
    requires small { total (counts_in (map session_tree sessions.now)) ≤ MAX_LINED_STEPS }
    ensures { MatchOption result
        (is_ok (shape_of (counts_in (map session_tree sessions.now))) ≡ false)
        (λ shape. shape_of (counts_in (map session_tree sessions.now)) ≡ Ok shape) }
{
    match Shape::of(&counts(sessions)) {
        Ok(shape) => Some(shape),
        Err(_) => None,
    }
}

/// The steps that a line names, if it is one. Each name is looked for among all of them.
fn line(names: &[Text], items: &[ItemText]) -> Option<Line>
    requires { length names.now ≤ MAX_LINED_STEPS }
    ensures { option_map (λ line. line.items) result ≡ numbered_line names.now (map item_tree items.now) }
{
    if items.is_empty() || items.len() > MAX_ITEMS {
        return None;
    }
    let mut line = Line::new();
    for item in items {
        let step = position(names, &item.name)?;
        line.push(step as u8);
    }
    Some(line)
}

/// The lines of a file, if each is one.
pub(crate) fn lines(
    alloc: Global,
    names: &[Text],
    texts: &[LineText],
) -> Result<Option<Vec<Line>>, AllocError>
    requires { length names.now ≤ MAX_LINED_STEPS }
    ensures { IfOk result (λ lines. option_map (λ lines. map (λ line. line.items) lines.items) lines ≡ all_some (numbered_line names.now) (map line_tree texts.now)) }
{
    let mut lines = Vec::new(alloc);
    for text in texts {
        match line(names, &text.items) {
            Some(line) => lines.push(line)?,
            None => return Ok(None),
        }
    }
    Ok(Some(lines))
}
