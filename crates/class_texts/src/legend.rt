//! What the marks mean that stand in the table.

ghost use Rattle.std.specs.Prelude.{◌≡◌, ◌++◌, ◌∷◌, [], IfOk, OnOk, flat_map};
ghost use Rattle.std.specs.Prelude.{None};
ghost use Rattle.class_texts.specs.Orders.{short_name};
ghost use Rattle.class_texts.specs.Legend as spec;

use crate::marks::{Marks, marks_of};
use crate::orders::put_short_name;
use events::Transcript;
use lock_modes::Text;
use order_classes::ClassRow;
use shown_texts::{put, put_line, step_name};
use sqlite_items::Items;
use std::alloc::{AllocError, Global};

/// The first step with each mark, where there is one.
#[derive(Clone, Copy)]
pub struct Firsts {
    pub waits: Option<u8>,
    pub fails: Option<u8>,
    pub is_skipped: Option<u8>,
}

/// The one that was first, or else a step where it has the mark.
fn or_first(first: Option<u8>, has: bool, step: u8) -> Option<u8>
    ensures { result ≡ spec.or_first first has step }
{
    match first {
        Some(first) => Some(first),
        None => step_if(has, step),
    }
}

fn step_if(has: bool, step: u8) -> Option<u8>
    ensures { result ≡ spec.or_first None has step }
{
    if has { Some(step) } else { None }
}

impl Firsts {
    /// No step has a mark.
    fn none() -> Firsts
        ensures { result ≡ spec.no_firsts }
    {
        Firsts {
            waits: None,
            fails: None,
            is_skipped: None,
        }
    }

    /// And a step with these marks.
    fn with_marks(self, step: u8, marks: Marks) -> Firsts
        ensures { result ≡ spec.with_marks self step marks }
    {
        Firsts {
            waits: or_first(self.waits, marks.waits, step),
            fails: or_first(self.fails, marks.fails, step),
            is_skipped: or_first(self.is_skipped, marks.is_skipped, step),
        }
    }
}

/// And the steps of an order.
fn with_steps(firsts: Firsts, told: &[Transcript], order: &[u8]) -> Firsts
    ensures { result ≡ spec.with_steps told.now order.now 0 firsts order.now }
{
    let mut found = firsts;
    for place in 0..order.len() {
        let step = order[place];
        found = found.with_marks(step, marks_of(step, &order[..place], told));
    }
    found
}

fn with_order(firsts: Firsts, row: &ClassRow) -> Firsts
    ensures { result ≡ spec.with_order firsts row.now }
{
    with_steps(firsts, row.shows.told.sessions(), row.line.as_slice())
}

/// The first steps of classes with the marks.
fn firsts_of(rows: &[ClassRow]) -> Firsts
    ensures { result ≡ spec.firsts_of rows.now }
{
    let mut found = Firsts::none();
    for row in rows {
        found = with_order(found, row);
    }
    found
}

/// Puts a step with a mark, and what that means, behind other texts, if there is one.
fn put_meant(
    alloc: Global,
    texts: &mut Items<Items<char>>,
    steps: &[Text],
    meaning: &str,
    step: Option<u8>,
) -> Result<(), AllocError>
    ensures { OnOk result (texts.new ≡ texts.old ++ spec.meant steps.now meaning.now step) }
{
    match step {
        None => Ok(()),
        Some(step) => put_step(alloc, texts, step_name(steps, step), meaning),
    }
}

fn put_step(
    alloc: Global,
    texts: &mut Items<Items<char>>,
    name: &str,
    meaning: &str,
) -> Result<(), AllocError>
    ensures { OnOk result (texts.new ≡ texts.old ++ (short_name name.now ++ meaning.now) ∷ []) }
{
    let mut text = Items::new(alloc);
    put_short_name(alloc, &mut text, name)?;
    put(&mut text, meaning)?;
    texts.push(text)
}

fn meanings(alloc: Global, steps: &[Text], firsts: Firsts) -> Result<Items<Items<char>>, AllocError>
    ensures { IfOk result (λ texts. texts ≡ spec.meanings steps.now firsts) }
{
    let mut texts = Items::new(alloc);
    put_meant(alloc, &mut texts, steps, ": waits", firsts.waits)?;
    put_meant(alloc, &mut texts, steps, "! fails", firsts.fails)?;
    put_meant(alloc, &mut texts, steps, "- is not sent", firsts.is_skipped)?;
    Ok(texts)
}

fn put_others(line: &mut Items<char>, texts: &[Items<char>]) -> Result<(), AllocError>
    ensures { OnOk result (line.new ≡ line.old ++ flat_map spec.behind_blanks texts.now) }
{
    for text in texts {
        put(line, "   ")?;
        put_line(line, text.as_slice())?;
    }
    Ok(())
}

/// Texts on one line, if there is any.
fn spaced(alloc: Global, texts: &[Items<char>]) -> Result<Items<Items<char>>, AllocError>
    ensures { IfOk result (λ lines. lines ≡ spec.spaced texts.now) }
{
    let mut lines = Items::new(alloc);
    match texts.split_first() {
        None => Ok(lines),
        Some((first, others)) => {
            let mut line = Items::new(alloc);
            put_line(&mut line, first.as_slice())?;
            put_others(&mut line, others)?;
            lines.push(line)?;
            Ok(lines)
        }
    }
}

/// What the marks mean that stand in the table.
pub(crate) fn legend_lines(
    alloc: Global,
    steps: &[Text],
    rows: &[ClassRow],
) -> Result<Items<Items<char>>, AllocError>
    ensures { IfOk result (λ lines. lines ≡ spec.legend_lines steps.now rows.now) }
{
    let texts = meanings(alloc, steps, firsts_of(rows))?;
    spaced(alloc, texts.as_slice())
}
