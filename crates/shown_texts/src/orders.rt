//! The order of a line, with what becomes of its steps.

ghost use Rattle.std.specs.Prelude.{◌≡◌, ◌++◌, ◌<◌, ◌+◌, ◌^◌, OnOk, codes, drop, get_or, length};
ghost use Rattle.order_names.specs.Spelling.{spelled};
ghost use Rattle.shown_texts.specs.Characters.{shown_text};
ghost use Rattle.shown_texts.specs.Orders as spec;

use crate::characters::{put, put_shown};
use crate::told::step_name;
use events::Event;
use line_moments::{Ending, Manner, Moment};
use lock_modes::Text;
use order_names::push_name;
use sqlite_items::Items;
use std::alloc::{AllocError, Global};

/// What becomes of a step.
#[derive(Clone, Copy, PartialEq, Eq)]
pub(crate) enum Mark {
    Waits,
    Fails,
}

fn is_fault(event: &Event) -> bool
    ensures { result ≡ spec.is_fault event.now }
{
    matches!(event, Event::Failed(_))
}

fn fails(moment: &Moment) -> bool
    ensures { result ≡ spec.fails moment.now }
{
    moment.events.events().iter().any(|event| is_fault(event))
}

fn waits(moment: &Moment) -> bool
    ensures { result ≡ spec.waits moment.now }
{
    matches!(&moment.ending, Ending::Awaits(_))
}

fn has(mark: Mark, moment: &Moment) -> bool
    ensures { result ≡ spec.has mark moment.now }
{
    match mark {
        Mark::Waits => waits(moment),
        Mark::Fails => fails(moment),
    }
}

/// Whether a later moment decides what becomes of the session's step, and then whether it comes to the mark.
fn decides(mark: Mark, session: u8, moment: &Moment) -> Option<bool>
    ensures { result ≡ spec.decides mark session moment.now }
{
    if moment.session != session {
        return None;
    }
    match moment.manner {
        Manner::IsSent => Some(false),
        Manner::IsResumed => some_if(has(mark, moment)),
        Manner::IsNotSent => None,
    }
}

fn some_if(is_so: bool) -> Option<bool>
    ensures { result ≡ spec.some_if is_so }
{
    if is_so { Some(true) } else { None }
}

/// Whether the session's step comes to the mark when it goes on.
fn goes_on(mark: Mark, session: u8, moments: &[Moment]) -> bool
    ensures { result ≡ spec.goes_on mark session moments.now }
{
    for moment in moments {
        if let Some(answer) = decides(mark, session, moment) {
            return answer;
        }
    }
    false
}

/// Whether a step comes to the mark in the moment in which it is sent, or in a later one.
fn comes_to(mark: Mark, moment: &Moment, later: &[Moment]) -> bool
    ensures { result ≡ spec.comes_to mark moment.now later.now }
{
    has(mark, moment) || goes_on(mark, moment.session, later)
}

/// Puts a mark behind a line, where that is so.
pub fn put_if(line: &mut Items<char>, is_so: bool, mark: &str) -> Result<(), AllocError>
    ensures { OnOk result (line.new ≡ line.old ++ spec.mark_if is_so mark.now) }
{
    if is_so {
        return put(line, mark);
    }
    Ok(())
}

/// Puts what becomes of a step that is sent behind a line.
fn put_sent(line: &mut Items<char>, moment: &Moment, later: &[Moment]) -> Result<(), AllocError>
    ensures { OnOk result (line.new ≡ line.old ++ spec.sent_marks moment.now later.now) }
{
    put_if(line, comes_to(Mark::Waits, moment, later), ":")?;
    put_if(line, comes_to(Mark::Fails, moment, later), "!")
}

fn put_marks(line: &mut Items<char>, moment: &Moment, later: &[Moment]) -> Result<(), AllocError>
    ensures { OnOk result (line.new ≡ line.old ++ spec.marks_by moment.now.manner moment.now later.now) }
{
    match moment.manner {
        Manner::IsSent => put_sent(line, moment, later),
        Manner::IsResumed => Ok(()),
        Manner::IsNotSent => put(line, "-"),
    }
}

/// The name of a step, or none where there is no step.
fn name_of(steps: &[Text], step: Option<u8>) -> &str
    ensures { result.now ≡ spec.step_at steps.now step }
{
    match step {
        None => "",
        Some(number) => step_name(steps, number),
    }
}

/// Puts a name, as a permutation line has it and as it is shown, behind a line.
pub fn put_name(alloc: Global, line: &mut Items<char>, name: &str) -> Result<(), AllocError>
    ensures { OnOk result (line.new ≡ line.old ++ shown_text (spelled name.now)) }
{
    let mut text = String::new(alloc);
    push_name(&mut text, name)?;
    put_shown(line, text.as_str())
}

/// Puts the step of a moment, with its marks and a blank, behind a line.
fn put_step(
    alloc: Global,
    line: &mut Items<char>,
    steps: &[Text],
    moment: &Moment,
    later: &[Moment],
) -> Result<(), AllocError>
    ensures { OnOk result (line.new ≡ line.old ++ spec.order_step steps.now moment.now later.now) }
{
    put_name(alloc, line, name_of(steps, moment.step))?;
    put_marks(line, moment, later)?;
    put(line, " ")
}

fn put_item(
    alloc: Global,
    line: &mut Items<char>,
    steps: &[Text],
    moment: &Moment,
    later: &[Moment],
) -> Result<(), AllocError>
    ensures { OnOk result (line.new ≡ line.old ++ spec.order_item steps.now moment.now later.now) }
{
    match moment.manner {
        Manner::IsSent | Manner::IsNotSent => put_step(alloc, line, steps, moment, later),
        Manner::IsResumed => Ok(()),
    }
}

/// The moments behind the one at this place.
fn behind(moments: &[Moment], place: usize) -> &[Moment]
    requires { place < length moments.now }
    ensures { result.now ≡ drop (place + 1) moments.now }
{
    &moments[place + 1..]
}

/// Puts the steps of the moments in turn, with their marks and a blank behind each, behind a line.
pub(crate) fn put_order(
    alloc: Global,
    line: &mut Items<char>,
    steps: &[Text],
    moments: &[Moment],
) -> Result<(), AllocError>
    ensures { OnOk result (line.new ≡ line.old ++ spec.order_text steps.now moments.now) }
{
    for place in 0..moments.len() {
        put_item(alloc, line, steps, &moments[place], behind(moments, place))?;
    }
    Ok(())
}

/// Whether this is the step with the number.
fn is_step(number: usize, step: Option<u8>) -> bool
    ensures { result ≡ spec.is_step number step }
{
    match step {
        None => false,
        Some(other) => usize::from(other) == number,
    }
}

fn is_of(number: usize, moment: &Moment) -> bool
    ensures { result ≡ spec.is_of number moment.now }
{
    is_step(number, moment.step)
}

/// Whether the step comes in the moments.
pub(crate) fn comes_in(moments: &[Moment], number: usize) -> bool
    ensures { result ≡ spec.comes_in moments.now number }
{
    moments.iter().any(|moment| is_of(number, moment))
}

/// How wide a name is, if its step comes in the moments.
fn width_of(moments: &[Moment], number: usize, name: &[char]) -> usize
    ensures { result ≡ spec.width_of moments.now number name.now }
{
    if comes_in(moments, number) {
        name.len()
    } else {
        0
    }
}

/// The width of the widest of the names of steps that come in the moments.
pub(crate) fn widest(moments: &[Moment], names: &[Items<char>]) -> usize
    ensures { result ≡ spec.widest_from moments.now 0 names.now }
{
    let mut most = 0;
    for number in 0..names.len() {
        most = most.max(width_of(moments, number, names[number].as_slice()));
    }
    most
}
