//! All orders in classes.

ghost use Rattle.std.specs.Prelude.{IfErr, IfOk};
ghost use Rattle.class_commands.specs.Classing.{IsTellingOf};
ghost use Rattle.page_core.specs.Calls.{AreNotTold, IsClassesCall, IsWanted};

use crate::ending::{ANSWERED, End, NO_NAME, classes_end, end_of};
use crate::names::name_of;
use crate::putting::{put, refuse};
use class_commands::{ClassesFault, classes};
use schedule_counts::Unwatched;
use std::alloc::Global;
use transcripts::Counted;
use wanted_classes::{DEFAULT_MEMORY, WantedClasses, WantedForm};

/// The JSON of the classes of the orders that clients can send, of the spec under a name, by all that they show or by what they answer: the bytes that
/// `isofarm classes SPEC --json` prints, or with `--by-result`.
#[unsafe(no_mangle)]
pub extern "C" fn page_classes(
    alloc: Global,
    spec: &[u8],
    name: &[u8],
    answers: bool,
    text: &mut [u8],
    end: &mut End,
) -> usize
    ensures { IsClassesCall spec.now name.now answers text.old text.new end.new result }
{
    let Some(name) = name_of(name) else {
        return refuse(end_of(NO_NAME), end);
    };
    let wanted = wanted(alloc, answers);
    match classed(alloc, spec, name, &wanted) {
        Ok(answer) => put(answer.as_slice(), end_of(ANSWERED), text, end),
        Err(fault) => refuse(classes_end(fault), end),
    }
}

/// All orders as JSON.
fn wanted(alloc: Global, answers: bool) -> WantedClasses<'static>
    ensures { IsWanted answers result }
{
    WantedClasses {
        all_orders: false,
        sample: None,
        memory: DEFAULT_MEMORY,
        by_result: answers,
        filters: Vec::new(alloc),
        queries: Vec::new(alloc),
        expectations: Vec::new(alloc),
        brief: false,
        outcomes: false,
        final_rows: false,
        form: WantedForm::Json,
        level: None,
    }
}

fn classed<'a>(
    alloc: Global,
    spec: &[u8],
    name: &str,
    wanted: &WantedClasses<'a>,
) -> Result<Vec<u8>, ClassesFault<'a>>
    ensures told { IfOk result (λ text. IsTellingOf spec.now name.now wanted.now text.items) }
    ensures refused { IfErr result (AreNotTold spec.now wanted.now.level) }
{
    let mut out = Counted::new(Vec::new(alloc));
    match classes(alloc, spec, name, wanted, &Unwatched, &mut out) {
        Ok(_finding) => Ok(out.into_inner()),
        Err(fault) => Err(fault),
    }
}
