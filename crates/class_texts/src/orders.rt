//! The first order of a class: its steps with their marks.

ghost use Rattle.std.specs.Prelude.{◌≡◌, ◌++◌, OnOk};
ghost use Rattle.class_texts.specs.Orders as spec;

use crate::marks::{Marks, marks_of};
use events::Transcript;
use lock_modes::Text;
use shown_texts::{put_cut, put_if, put_name, step_name};
use sqlite_items::Items;
use std::alloc::{AllocError, Global};

/// The characters of a name, at most.
const MOST_NAME: usize = 24;

fn put_marks(line: &mut Items<char>, marks: Marks) -> Result<(), AllocError>
    ensures { OnOk result (line.new ≡ line.old ++ spec.marks_text marks) }
{
    put_if(line, marks.is_skipped, "-")?;
    put_if(line, marks.waits, ":")?;
    put_if(line, marks.fails, "!")
}

/// Puts a name, cut where it is too long, behind a line.
pub(crate) fn put_short_name(
    alloc: Global,
    line: &mut Items<char>,
    name: &str,
) -> Result<(), AllocError>
    ensures { OnOk result (line.new ≡ line.old ++ spec.short_name name.now) }
{
    let mut whole = Items::new(alloc);
    put_name(alloc, &mut whole, name)?;
    put_cut(line, MOST_NAME, whole.as_slice())
}

/// Puts a step with its marks, behind these others, behind a line and a blank.
fn put_step(
    alloc: Global,
    line: &mut Items<char>,
    steps: &[Text],
    told: &[Transcript],
    before: &[u8],
    step: u8,
) -> Result<(), AllocError>
    ensures { OnOk result (line.new ≡ line.old ++ spec.behind_blank (spec.step_word steps.now told.now before.now step)) }
{
    line.push(' ')?;
    put_short_name(alloc, line, step_name(steps, step))?;
    put_marks(line, marks_of(step, before, told))
}

/// Puts the steps of an order with their marks, a blank in front of each, behind a line.
pub(crate) fn put_order(
    alloc: Global,
    line: &mut Items<char>,
    steps: &[Text],
    told: &[Transcript],
    order: &[u8],
) -> Result<(), AllocError>
    ensures { OnOk result (line.new ≡ line.old ++ spec.order_text steps.now told.now order.now) }
{
    for place in 0..order.len() {
        put_step(alloc, line, steps, told, &order[..place], order[place])?;
    }
    Ok(())
}
