//! Reads names: new ones of sessions and steps, and names of steps in permutation lines.

ghost use Rattle.std.specs.Prelude.{◌≡◌, ◌∷◌, ◌++◌, List, ℕ, None, map, length, IfOk, false, ◌<◌, nat_le};
ghost use Rattle.std.specs.String.{string_bytes};
ghost use Rattle.spec_reader.specs.declared.TheConstants.{MAX_ITEMS};
ghost use Rattle.spec_reader.specs.Tokens.{Placed as PlacedToken, is_star};
ghost use Rattle.spec_reader.specs.Lexing.{view_token, view, views};
ghost use Rattle.spec_reader.specs.Names.{is_among, names_in, step_names};
ghost use Rattle.spec_reader.specs.Tree.{HeadTree, MarkerTree, ItemTree, LineTree, FrontTree};
ghost use Rattle.spec_reader.specs.Reading.{reads, reads_item, ItemNamed, MarkerBegun, MarkerNamed, SessionBegun, Headed, StepBegun, StepNamed};
ghost use Rattle.spec_reader.specs.Views.{item_tree, Reads};

use crate::MAX_ITEMS;
use crate::cursor::{fault, first, name_of};
use crate::error::{Kind, Stop};
use crate::known::{KnownSessions, KnownSteps};
use crate::token::Placed;
use crate::tree::Item;
use std::alloc::Global;

/// Whether a step of these sessions or among these steps has this name.
#[tactic(auto, using(crate::proofs::Named::behind_one_another))]
fn is_used(sessions: &KnownSessions, steps: &KnownSteps, name: &str) -> bool
    ensures { result ≡ is_among name.now (step_names sessions.now ++ names_in steps.now) }
{
    sessions.has_step(name) || steps.has(name)
}

/// The name of a session, after its first word.
pub fn session_name<'a, 't>(
    alloc: Global,
    tokens: &'t [Placed<'a>],
    sessions: &KnownSessions,
) -> Result<(String, &'t [Placed<'a>]), Stop>
    ensures reads { (f : FrontTree) →
        Reads (λ x. reads (Headed f sessions.now (string_bytes x.0) None None) (views x.1.now))
        result (reads (SessionBegun f sessions.now) (views tokens.now)) }
    ensures shorter { IfOk result (λ x. length x.1.now < length tokens.now) }
{
    let (token, rest) = first(tokens)?;
    let name = name_of(alloc, &token)?;
    if sessions.has(name.as_str()) {
        return Err(fault(&token, Kind::DuplicateSession));
    }
    Ok((name, rest))
}

/// The name of a step, after its first word.
pub fn step_name<'a, 't>(
    alloc: Global,
    tokens: &'t [Placed<'a>],
    sessions: &KnownSessions,
    steps: &KnownSteps,
) -> Result<(String, &'t [Placed<'a>]), Stop>
    ensures reads { (f : FrontTree) (h : HeadTree) →
        Reads (λ x. reads (StepNamed f sessions.now h steps.now (string_bytes x.0)) (views x.1.now))
        result (reads (StepBegun f sessions.now h steps.now) (views tokens.now)) }
    ensures shorter { IfOk result (λ x. length x.1.now < length tokens.now) }
{
    let (token, rest) = first(tokens)?;
    let name = name_of(alloc, &token)?;
    if is_used(sessions, steps, name.as_str()) {
        return Err(fault(&token, Kind::DuplicateStep));
    }
    Ok((name, rest))
}

/// The name of a step, in a marker.
pub fn known_name(alloc: Global, token: &Placed, sessions: &KnownSessions) -> Result<String, Stop>
    ensures { (f : FrontTree) (ls : List LineTree)
        (is : List ItemTree) (n : List ℕ) (ms : List MarkerTree) (ts : List PlacedToken) → is_star (view_token token.now.token) ≡ false →
        Reads (λ x. reads (MarkerNamed f sessions.now ls is n ms (string_bytes x)) ts)
        result (reads (MarkerBegun f sessions.now ls is n ms) (view token.now ∷ ts)) }
{
    let name = name_of(alloc, token)?;
    if !sessions.has_step(name.as_str()) {
        return Err(fault(token, Kind::UnknownStep));
    }
    Ok(name)
}

/// Whether a line has as many items as it may have.
fn is_full(items: &[Item]) -> bool
    ensures { result ≡ nat_le MAX_ITEMS (length (map item_tree items.now)) }
{
    items.len() >= MAX_ITEMS
}

/// The name of an item, behind these items of its line.
pub fn item_name(
    alloc: Global,
    token: &Placed,
    sessions: &KnownSessions,
    items: &[Item],
) -> Result<String, Stop>
    ensures { (f : FrontTree) (ls : List LineTree) (ts : List PlacedToken) →
        Reads (λ x. reads (ItemNamed f sessions.now ls
        (map item_tree items.now) (string_bytes x)) ts)
        result (reads_item f sessions.now ls
        (map item_tree items.now) (view token.now) ts) }
{
    let name = name_of(alloc, token)?;
    if is_full(items) {
        return Err(fault(token, Kind::TooLarge));
    }
    if !sessions.has_step(name.as_str()) {
        return Err(fault(token, Kind::UnknownStep));
    }
    Ok(name)
}
