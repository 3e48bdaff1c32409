//! How wide the parts of a page are, and the names in them.

ghost use Rattle.std.specs.Prelude.{◌≡◌, IfOk, map};
ghost use Rattle.shown_texts.specs.Characters.{shown_text};
ghost use Rattle.shown_texts.specs.Pages as spec;

use crate::characters::put_shown;
use crate::names::shortened;
use crate::orders::widest;
use crate::page::Page;
use line_moments::{Left, Moment, Shown};
use lock_modes::Text;
use sqlite_items::Items;
use std::alloc::{AllocError, Global};

/// How wide the parts of a page are, and the names in them.
pub(crate) struct Frame {
    /// The names of the sessions in reasons.
    pub names: Items<Items<char>>,
    /// The names of the sessions, not shortened.
    pub whole: Items<Items<char>>,
    pub tables: Items<Items<char>>,
    /// The names of the steps at the left.
    pub steps: Items<Items<char>>,
    /// The columns at the left of the lanes, without a blank behind them.
    pub left: usize,
    /// The columns of each lane.
    pub column: usize,
}

// Written out and not derived, so that who owns one calls this and does not let its parts go one by one.
impl Drop for Frame {
    fn drop(self) {
        let Frame {
            names: _names,
            whole: _whole,
            tables: _tables,
            steps: _steps,
            left: _,
            column: _,
        } = self;
    }
}

/// The texts as they are shown.
fn shown_names(alloc: Global, names: &[Text]) -> Result<Items<Items<char>>, AllocError>
    ensures { IfOk result (λ lines. lines ≡ map shown_text names.now) }
{
    let mut lines = Items::new(alloc);
    for name in names {
        lines.push(shown_name(alloc, name.as_str())?)?;
    }
    Ok(lines)
}

pub(crate) fn shown_name(alloc: Global, name: &str) -> Result<Items<char>, AllocError>
    ensures { IfOk result (λ line. line ≡ shown_text name.now) }
{
    let mut line = Items::new(alloc);
    put_shown(&mut line, name)?;
    Ok(line)
}

fn table_names(alloc: Global, left: &[Left]) -> Result<Items<Items<char>>, AllocError>
    ensures { IfOk result (λ lines. lines ≡ map spec.table_name left.now) }
{
    let mut lines = Items::new(alloc);
    for one in left {
        lines.push(shown_name(alloc, one.table.name.as_str())?)?;
    }
    Ok(lines)
}

/// How wide the names of steps at the left may be, where there are so many sessions.
fn step_room(count: usize) -> usize
    ensures { result ≡ spec.step_room count }
{
    if count <= 3 { 12 } else { 7 }
}

/// How wide the names of sessions in reasons may be.
fn name_room(count: usize) -> usize
    ensures { result ≡ spec.name_room count }
{
    if count <= 3 { 14 } else { 9 }
}

fn left_width(moments: &[Moment], steps: &[Items<char>]) -> usize
    ensures { result ≡ spec.left_width moments.now steps.now }
{
    widest(moments, steps).max(3)
}

fn column_width(left: usize, count: usize) -> usize
    ensures { result ≡ spec.column_width left count }
{
    (79_usize.saturating_sub(left) / count.max(1)).max(18)
}

/// The names of the steps at the left.
fn left_names(alloc: Global, count: usize, steps: &[Text]) -> Result<Items<Items<char>>, AllocError>
    ensures { IfOk result (λ names. names ≡ spec.left_names count steps.now) }
{
    shown_shortened(alloc, step_room(count), steps)
}

/// The texts as they are shown, shortened to a width.
pub(crate) fn shown_shortened(
    alloc: Global,
    most: usize,
    names: &[Text],
) -> Result<Items<Items<char>>, AllocError>
    ensures { IfOk result (λ lines. lines ≡ spec.shown_shortened most names.now) }
{
    let whole = shown_names(alloc, names)?;
    shortened(alloc, most, whole.as_slice())
}

fn frame_with(
    alloc: Global,
    sessions: &[Text],
    steps: &[Text],
    shown: &Shown,
) -> Result<Frame, AllocError>
    ensures { IfOk result (λ frame. frame ≡ spec.frame_with sessions.now steps.now shown.now) }
{
    let whole = shown_names(alloc, sessions)?;
    let steps = left_names(alloc, sessions.len(), steps)?;
    let frame = frame_by(alloc, sessions.len(), shown, whole, steps)?;
    Ok(frame)
}

fn frame_by(
    alloc: Global,
    count: usize,
    shown: &Shown,
    whole: Items<Items<char>>,
    steps: Items<Items<char>>,
) -> Result<Frame, AllocError>
    ensures { IfOk result (λ frame. frame ≡ spec.frame_by count shown.now whole steps) }
{
    let names = shortened(alloc, name_room(count), whole.as_slice())?;
    let tables = table_names(alloc, shown.left.as_slice())?;
    let left = left_width(shown.moments.as_slice(), steps.as_slice());
    Ok(Frame {
        names,
        whole,
        tables,
        steps,
        left,
        column: column_width(left, count),
    })
}

pub(crate) fn frame_of(alloc: Global, page: &Page<'_>) -> Result<Frame, AllocError>
    ensures { IfOk result (λ frame. frame ≡ spec.frame page.now) }
{
    frame_with(alloc, page.sessions, page.steps, page.shown)
}
