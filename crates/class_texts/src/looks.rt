//! What queries see of final rows.

ghost use Rattle.std.specs.Prelude.{◌≡◌, [], IfOk, get_or, map};
ghost use Rattle.class_texts.specs.Beneath as spec;

use crate::left::begun;
use crate::rows::put_seen;
use events::Event;
use lock_modes::Text;
use shown_texts::{put, put_shown};
use sqlite_items::Items;
use std::alloc::{AllocError, Global};
use std::marker::Model;

/// What a query sees of the final rows of each class.
#[derive(Drop)]
pub struct Looked<'a> {
    /// The SELECT as it was given.
    pub text: &'a str,
    /// What it sees, class by class in the order of the page's rows.
    pub seen: Vec<Vec<Event>>,
}

impl<'a> Model for Looked<'a> {
    ghost use Rattle.std.specs.Prelude.{Vec, map};
    ghost use Rattle.std.specs.Coded.{codes};
    ghost use Rattle.events.specs.contracts.event.Event as event;
    ghost use Rattle.class_texts.specs.Beneath as beneath;

    ghost Value = { beneath.Look };

    ghost coded = { Prim.hlevel (codes, event.the_row.coded) };

    ghost view = { λ l. record { text = l.text.now; seen = map (λ v. v.items) l.seen.items } };
}

/// What is seen of the class at a place, or nothing where there is no such place.
pub fn seen_at(seen: &[Vec<Event>], place: usize) -> &[Event]
    ensures { result.now ≡ get_or (map (λ v. v.items) seen.now) place [] }
{
    match seen.get(place) {
        Some(events) => events.as_slice(),
        None => &[],
    }
}

/// What a query sees of the class at a place.
fn look_line(
    alloc: Global,
    steps: &[Text],
    place: usize,
    look: &Looked<'_>,
) -> Result<Items<char>, AllocError>
    ensures { IfOk result (λ line. line ≡ spec.look_line steps.now place look.now) }
{
    let mut line = begun(alloc)?;
    put(&mut line, "query ")?;
    put_shown(&mut line, look.text)?;
    put(&mut line, ": ")?;
    put_seen(alloc, &mut line, steps, seen_at(&look.seen, place))?;
    Ok(line)
}

/// What each query sees of the class at a place, in lines.
pub(crate) fn looks_lines(
    alloc: Global,
    steps: &[Text],
    place: usize,
    looks: &[Looked<'_>],
) -> Result<Items<Items<char>>, AllocError>
    ensures { IfOk result (λ lines. lines ≡ map (spec.look_line steps.now place) looks.now) }
{
    let mut lines = Items::new(alloc);
    for look in looks {
        lines.push(look_line(alloc, steps, place, look)?)?;
    }
    Ok(lines)
}
