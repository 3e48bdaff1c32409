//! Locks, waits and reasons in words.

ghost use Rattle.std.specs.Prelude.{◌≡◌, ◌++◌, OnOk, flat_map};
ghost use Rattle.lock_modes.specs.Mode.{same_mode};
ghost use Rattle.transcripts.specs.Text.{value_text};
ghost use Rattle.shown_texts.specs.Characters.{shown_text};
ghost use Rattle.lock_modes.specs.declared.resource.Resource.TheVariants.{Row};
ghost use Rattle.shown_texts.specs.Words as spec;

use crate::characters::{put, put_line, put_shown};
use crate::names::name_at;
use crate::told::push_value;
use lock_modes::{Mode, Resource, Value};
use lock_queues::{Edge, Hop, Reason, Want};
use sqlite_items::Items;
use std::alloc::{AllocError, Global};

fn mode_text(mode: Mode) -> &'static str
    ensures { result.now ≡ spec.mode_text mode }
{
    match mode {
        Mode::IntentShare => "IS",
        Mode::IntentExclusive => "IX",
        Mode::Share => "S",
        Mode::ShareIntent => "SIX",
        Mode::Exclusive => "X",
    }
}

/// Puts a table, or a row of it, behind a line.
fn put_place(
    alloc: Global,
    line: &mut Items<char>,
    tables: &[Items<char>],
    place: &Resource,
) -> Result<(), AllocError>
    ensures { OnOk result (line.new ≡ line.old ++ spec.place_text tables.now place.now) }
{
    match place {
        Resource::Table(table) => put_line(line, name_at(tables, usize::from(*table))),
        Resource::Row(table, key) => put_row(alloc, line, tables, *table, key),
    }
}

/// Puts a row, by its table and its key, behind a line.
fn put_row(
    alloc: Global,
    line: &mut Items<char>,
    tables: &[Items<char>],
    table: u16,
    key: &Value,
) -> Result<(), AllocError>
    ensures { OnOk result (line.new ≡ line.old ++ spec.place_text tables.now (Row table key.now)) }
{
    put_line(line, name_at(tables, usize::from(table)))?;
    put(line, "[")?;
    put_value(alloc, line, key)?;
    put(line, "]")
}

/// Puts a value, as it is shown, behind a line.
fn put_value(alloc: Global, line: &mut Items<char>, value: &Value) -> Result<(), AllocError>
    ensures { OnOk result (line.new ≡ line.old ++ shown_text (value_text value.now)) }
{
    let mut text = String::new(alloc);
    push_value(&mut text, value)?;
    put_shown(line, text.as_str())
}

fn put_mode_on_place(
    alloc: Global,
    line: &mut Items<char>,
    tables: &[Items<char>],
    mode: Mode,
    place: &Resource,
) -> Result<(), AllocError>
    ensures { OnOk result (line.new ≡ line.old ++ spec.mode_on_place tables.now mode place.now) }
{
    put(line, "wants ")?;
    put(line, mode_text(mode))?;
    put(line, " on ")?;
    put_place(alloc, line, tables, place)
}

/// Whether both modes are one.
fn is_same(a: Mode, b: Mode) -> bool
    ensures { result ≡ same_mode a b }
{
    match a {
        Mode::IntentShare => matches!(b, Mode::IntentShare),
        Mode::IntentExclusive => matches!(b, Mode::IntentExclusive),
        Mode::Share => matches!(b, Mode::Share),
        Mode::ShareIntent => matches!(b, Mode::ShareIntent),
        Mode::Exclusive => matches!(b, Mode::Exclusive),
    }
}

/// Puts what a session has already, and asks for, behind what it wants.
fn put_had(
    line: &mut Items<char>,
    wanted: Mode,
    asked: Mode,
    has: Option<Mode>,
) -> Result<(), AllocError>
    ensures { OnOk result (line.new ≡ line.old ++ spec.had_text wanted asked has) }
{
    match has {
        None => Ok(()),
        Some(mode) => put_held(line, wanted, asked, mode),
    }
}

fn put_held(line: &mut Items<char>, wanted: Mode, asked: Mode, has: Mode) -> Result<(), AllocError>
    ensures { OnOk result (line.new ≡ line.old ++ spec.held_text wanted asked has) }
{
    if is_same(asked, wanted) {
        put(line, ", has ")?;
        return put(line, mode_text(has));
    }
    put(line, ": has ")?;
    put(line, mode_text(has))?;
    put(line, " and asks ")?;
    put(line, mode_text(asked))
}

/// Puts what a session wants behind a line.
pub(crate) fn put_want(
    alloc: Global,
    line: &mut Items<char>,
    tables: &[Items<char>],
    want: &Want,
) -> Result<(), AllocError>
    ensures { OnOk result (line.new ≡ line.old ++ spec.want_text tables.now want.now) }
{
    put_mode_on_place(alloc, line, tables, want.mode, &want.resource)?;
    put_had(line, want.mode, want.asked, want.has)
}

fn put_why(line: &mut Items<char>, reason: Reason) -> Result<(), AllocError>
    ensures { OnOk result (line.new ≡ line.old ++ spec.why_text reason) }
{
    match reason {
        Reason::Holds(mode) => put_mode(line, " holds ", mode),
        Reason::Ahead(mode) => put_mode(line, " is ahead, for ", mode),
    }
}

/// Puts a mode, behind a word, behind a line.
fn put_mode(line: &mut Items<char>, word: &str, mode: Mode) -> Result<(), AllocError>
    ensures { OnOk result (line.new ≡ line.old ++ (word.now ++ spec.mode_text mode)) }
{
    put(line, word)?;
    put(line, mode_text(mode))
}

/// Puts whom a wait waits for, and why, behind a line.
pub(crate) fn put_reason(
    line: &mut Items<char>,
    names: &[Items<char>],
    edge: Edge,
) -> Result<(), AllocError>
    ensures { OnOk result (line.new ≡ line.old ++ spec.reason_text names.now edge) }
{
    put_line(line, name_at(names, usize::from(edge.session)))?;
    put_why(line, edge.reason)
}

/// Puts what a session of a ring wants behind a line.
pub(crate) fn put_hop(
    alloc: Global,
    line: &mut Items<char>,
    names: &[Items<char>],
    tables: &[Items<char>],
    hop: &Hop,
) -> Result<(), AllocError>
    ensures { OnOk result (line.new ≡ line.old ++ spec.hop_text names.now tables.now hop.now) }
{
    put_line(line, name_at(names, usize::from(hop.session)))?;
    put(line, " ")?;
    put_mode_on_place(alloc, line, tables, hop.mode, &hop.resource)?;
    put(line, ":")
}

/// Puts the sessions of a ring, and the first one once more, behind a line.
pub(crate) fn put_ring(
    line: &mut Items<char>,
    names: &[Items<char>],
    session: u8,
    hops: &[Hop],
) -> Result<(), AllocError>
    ensures { OnOk result (line.new ≡ line.old ++ spec.ring_text names.now session hops.now) }
{
    put(line, "ring ")?;
    put_way(line, names, hops)?;
    put_line(line, name_at(names, usize::from(session)))
}

fn put_way(line: &mut Items<char>, names: &[Items<char>], hops: &[Hop]) -> Result<(), AllocError>
    ensures { OnOk result (line.new ≡ line.old ++ flat_map (spec.leading_on names.now) hops.now) }
{
    for hop in hops {
        put_line(line, name_at(names, usize::from(hop.session)))?;
        put(line, " > ")?;
    }
    Ok(())
}
