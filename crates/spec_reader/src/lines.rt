//! Reads permutation lines: items, and the markers behind them.

ghost use Rattle.std.specs.Prelude.{◌≡◌, Ok, ◌+◌, ◌∷◌, [], ◌++◌, List, ℕ, map, length, IfOk, false, ◌||◌, ◌<◌, nat_le, true};
ghost use Rattle.std.specs.String.{string_bytes};
ghost use Rattle.spec_reader.specs.declared.TheConstants.{MAX_LINES};
ghost use Rattle.spec_reader.specs.Tokens.{is_permutation, is_end, is_session};
ghost use Rattle.spec_reader.specs.Lexing.{view_token, view, views};
ghost use Rattle.spec_reader.specs.Tree.{SessionTree, MarkerTree, ItemTree, LineTree, FrontTree};
ghost use Rattle.spec_reader.specs.Reading.{reads, reads_listed, reads_item, reads_lined, LineBegun, ItemNamed, MarkerBegun, MarkerNamed, ItemDone, Sessioned, made_spec, made_item};
ghost use Rattle.spec_reader.specs.Views.{line_tree, marker_tree, item_tree, Reads};

use crate::MAX_LINES;
use crate::cursor::{fault, first, nothing_after, refused, standing};
use crate::error::{Kind, Stop};
use crate::known::KnownSessions;
use crate::names::{item_name, known_name};
use crate::token::{Placed, Token};
use crate::tree::{Item, Line, Marker};
use std::alloc::Global;

/// What follows the name in a marker, and the token after the marker.
fn named_marker<'a, 't>(
    name: String,
    tokens: &'t [Placed<'a>],
) -> Result<(Marker, Placed<'a>, &'t [Placed<'a>]), Stop>
    ensures reads { (f : FrontTree) (ss : List SessionTree) (ls : List LineTree)
        (is : List ItemTree) (n : List ℕ) (ms : List MarkerTree) →
        Reads (λ x. reads_listed f ss ls is n (ms ++ marker_tree x.0 ∷ []) (view x.1) (views x.2.now))
        result (reads (MarkerNamed f ss ls is n ms (string_bytes name)) (views tokens.now)) }
    ensures shorter { IfOk result (λ x. length x.2.now < length tokens.now) }
{
    let (next, rest) = first(tokens)?;
    if !next.token.is_notices() {
        return Ok((Marker::Before(name), next, rest));
    }
    let (number, rest) = first(rest)?;
    if !number.token.is_number() {
        return Err(fault(&number, refused(&number.token)));
    }
    let (next, rest) = first(rest)?;
    Ok((Marker::Notices(name), next, rest))
}

/// A marker, and the token after it.
fn marker_of<'a, 't>(
    alloc: Global,
    tokens: &'t [Placed<'a>],
    sessions: &KnownSessions,
) -> Result<(Marker, Placed<'a>, &'t [Placed<'a>]), Stop>
    ensures reads { (f : FrontTree) (ls : List LineTree)
        (is : List ItemTree) (n : List ℕ) (ms : List MarkerTree) →
        Reads (λ x. reads_listed f sessions.now ls is n (ms ++ marker_tree x.0 ∷ [])
        (view x.1) (views x.2.now))
        result (reads (MarkerBegun f sessions.now ls is n ms) (views tokens.now)) }
    ensures shorter { IfOk result (λ x. length x.2.now < length tokens.now) }
{
    let (token, rest) = first(tokens)?;
    if token.token.is_star() {
        let (next, rest) = first(rest)?;
        return Ok((Marker::AnyTime, next, rest));
    }
    let name = known_name(alloc, &token, sessions)?;
    named_marker(name, rest)
}

/// Adds a marker, and gives the token after it.
fn push_marker<'a, 't>(
    alloc: Global,
    tokens: &'t [Placed<'a>],
    sessions: &KnownSessions,
    markers: &mut Vec<Marker>,
) -> Result<(Placed<'a>, &'t [Placed<'a>]), Stop>
    ensures reads { (f : FrontTree) (ls : List LineTree) (is : List ItemTree) (n : List ℕ) →
        Reads (λ x. reads_listed f sessions.now ls is n (map marker_tree markers.new.items)
        (view x.0) (views x.1.now))
        result (reads (MarkerBegun f sessions.now ls is n (map marker_tree markers.old.items)) (views tokens.now)) }
    ensures shorter { IfOk result (λ x. length x.1.now < length tokens.now) }
{
    let (marker, next, rest) = marker_of(alloc, tokens, sessions)?;
    markers.push(marker)?;
    Ok((next, rest))
}

/// The markers of an item, after the opening sign, and the tokens after the closing one.
fn markers_of<'a, 't>(
    alloc: Global,
    tokens: &'t [Placed<'a>],
    sessions: &KnownSessions,
) -> Result<(Vec<Marker>, &'t [Placed<'a>]), Stop>
    ensures reads { (f : FrontTree) (ls : List LineTree) (is : List ItemTree) (n : List ℕ) →
        Reads (λ x. reads (ItemDone f sessions.now ls (is ++ made_item n (map marker_tree x.0.items) ∷ [])) (views x.1.now))
        result (reads (MarkerBegun f sessions.now ls is n []) (views tokens.now)) }
    ensures shorter { IfOk result (λ x. length x.1.now < length tokens.now) }
{
    let mut markers = Vec::new(alloc);
    let (mut next, mut rest) = push_marker(alloc, tokens, sessions, &mut markers)?;
    'markers: while next.token.is_comma() {
        (next, rest) = push_marker(alloc, rest, sessions, &mut markers)?;
    }
    if !next.token.is_close() {
        return Err(fault(&next, refused(&next.token)));
    }
    Ok((markers, rest))
}

/// What follows the name of an item, and the token after the item.
fn item_of<'a, 't>(
    alloc: Global,
    name: String,
    tokens: &'t [Placed<'a>],
    sessions: &KnownSessions,
) -> Result<(Item, Placed<'a>, &'t [Placed<'a>]), Stop>
    ensures reads { (f : FrontTree) (ls : List LineTree) (is : List ItemTree) →
        Reads (λ x. reads (ItemDone f sessions.now ls (is ++ item_tree x.0 ∷ []))
        (view x.1 ∷ views x.2.now))
        result (reads (ItemNamed f sessions.now ls is (string_bytes name)) (views tokens.now)) }
    ensures shorter { IfOk result (λ x. length x.2.now < length tokens.now) }
{
    let (next, rest) = first(tokens)?;
    if !next.token.is_open() {
        let markers = Vec::new(alloc);
        return Ok((Item { name, markers }, next, rest));
    }
    let (markers, rest) = markers_of(alloc, rest, sessions)?;
    let (next, rest) = first(rest)?;
    Ok((Item { name, markers }, next, rest))
}

/// An item from its name on, behind these items of its line, and the token after it.
fn named_item<'a, 't>(
    alloc: Global,
    token: &Placed<'a>,
    tokens: &'t [Placed<'a>],
    sessions: &KnownSessions,
    items: &[Item],
) -> Result<(Item, Placed<'a>, &'t [Placed<'a>]), Stop>
    ensures reads { (f : FrontTree) (ls : List LineTree) →
        Reads (λ x. reads (ItemDone f sessions.now ls
        (map item_tree items.now ++ item_tree x.0 ∷ []))
        (view x.1 ∷ views x.2.now))
        result (reads_item f sessions.now ls
        (map item_tree items.now) (view token.now) (views tokens.now)) }
    ensures shorter { IfOk result (λ x. length x.2.now < length tokens.now) }
{
    let name = item_name(alloc, token, sessions, items)?;
    item_of(alloc, name, tokens, sessions)
}

/// Adds an item to a line, and gives the token after it.
fn push_item<'a, 't>(
    alloc: Global,
    token: &Placed<'a>,
    tokens: &'t [Placed<'a>],
    sessions: &KnownSessions,
    items: &mut Vec<Item>,
) -> Result<(Placed<'a>, &'t [Placed<'a>]), Stop>
    ensures reads { (f : FrontTree) (ls : List LineTree) →
        Reads (λ x. reads (ItemDone f sessions.now ls (map item_tree items.new.items))
        (view x.0 ∷ views x.1.now))
        result (reads_item f sessions.now ls
        (map item_tree items.old.items) (view token.now) (views tokens.now)) }
    ensures shorter { IfOk result (λ x. length x.1.now < length tokens.now) }
{
    let (item, next, rest) = named_item(alloc, token, tokens, sessions, items)?;
    items.push(item)?;
    Ok((next, rest))
}

/// Whether a line ends at this token.
fn is_line_end(token: &Token) -> bool
    ensures { result ≡ (is_permutation (view_token token.now) || is_end (view_token token.now)) }
{
    token.is_permutation() || token.is_end()
}

/// A permutation line, after its first word, and the token after it.
fn line_of<'a, 't>(
    alloc: Global,
    tokens: &'t [Placed<'a>],
    sessions: &KnownSessions,
) -> Result<(Line, Placed<'a>, &'t [Placed<'a>]), Stop>
    ensures reads { (f : FrontTree) (ls : List LineTree) →
        Reads (λ x. reads_lined f sessions.now (ls ++ line_tree x.0 ∷ [])
        (view x.1) (views x.2.now))
        result (reads (LineBegun f sessions.now ls) (views tokens.now)) }
    ensures shorter { IfOk result (λ x. length x.2.now < length tokens.now) }
{
    let mut items = Vec::new(alloc);
    let (token, rest) = first(tokens)?;
    let (mut next, mut rest) = push_item(alloc, &token, rest, sessions, &mut items)?;
    'items: while !is_line_end(&next.token) {
        let token = next;
        (next, rest) = push_item(alloc, &token, rest, sessions, &mut items)?;
    }
    Ok((Line { items }, next, rest))
}

/// Whether there are as many lines as a file may have.
fn is_full(lines: &[Line]) -> bool
    ensures { result ≡ nat_le MAX_LINES (length (map line_tree lines.now)) }
{
    lines.len() >= MAX_LINES
}

/// Adds a permutation line, from its first word on, and gives the token after it.
fn push_line<'a, 't>(
    alloc: Global,
    word: &Placed<'a>,
    tokens: &'t [Placed<'a>],
    sessions: &KnownSessions,
    lines: &mut Vec<Line>,
) -> Result<(Placed<'a>, &'t [Placed<'a>]), Stop>
    requires { is_permutation (view_token word.now.token) ≡ true }
    ensures reads { (f : FrontTree) →
        Reads (λ x. reads_lined f sessions.now (map line_tree lines.new.items)
        (view x.0) (views x.1.now))
        result (reads_lined f sessions.now (map line_tree lines.old.items) (view word.now) (views tokens.now)) }
    ensures shorter { IfOk result (λ x. length x.1.now < length tokens.now) }
{
    if is_full(lines) {
        return Err(fault(word, Kind::TooLarge));
    }
    let (line, next, rest) = line_of(alloc, tokens, sessions)?;
    lines.push(line)?;
    Ok((next, rest))
}

/// The lines behind the sessions, up to the end.
#[tactic(auto, using(crate::proofs::Behind::session_behind))]
pub fn lines_of<'a, 't>(
    alloc: Global,
    token: Placed<'a>,
    tokens: &'t [Placed<'a>],
    sessions: &KnownSessions,
) -> Result<Vec<Line>, Stop>
    requires { is_session (view_token token.token) ≡ false }
    ensures { (f : FrontTree) →
        Reads (λ x. Ok (made_spec f sessions.now (map line_tree x.items))) result
        (reads (Sessioned f sessions.now) (view token.entry ∷ views tokens.now)) }
{
    let mut lines = Vec::new(alloc);
    let (mut next, mut rest) = standing(token, tokens);
    'lines: while next.token.is_permutation() {
        let word = next;
        (next, rest) = push_line(alloc, &word, rest, sessions, &mut lines)?;
    }
    if !next.token.is_end() {
        return Err(fault(&next, refused(&next.token)));
    }
    nothing_after(rest)?;
    Ok(lines)
}
