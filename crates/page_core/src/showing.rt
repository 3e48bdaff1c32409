//! One order, and what happens in it.

ghost use Rattle.std.specs.Prelude.{IfErr, IfOk, None};
ghost use Rattle.spec_commands.specs.Showing.{IsShowingOf};
ghost use Rattle.spec_commands.specs.declared.showing.ShowForm.TheVariants.{Json};
ghost use Rattle.spec_commands.specs.declared.showing.WantedOrder.TheVariants.{Rank};
ghost use Rattle.page_core.specs.Calls.{IsNotShown, IsShowCall};

use crate::ending::{ANSWERED, End, NO_NAME, end_of, show_end};
use crate::names::name_of;
use crate::putting::{put, refuse};
use spec_commands::{ShowFault, ShowForm, WantedOrder, show};
use std::alloc::Global;
use transcripts::Counted;

/// The JSON of what happens in the order of a rank, of the spec under a name: the bytes that `isofarm show SPEC RANK --json` prints.
#[unsafe(no_mangle)]
pub extern "C" fn page_show(
    alloc: Global,
    spec: &[u8],
    name: &[u8],
    rank: u64,
    text: &mut [u8],
    end: &mut End,
) -> usize
    ensures { IsShowCall spec.now name.now rank text.old text.new end.new result }
{
    let Some(name) = name_of(name) else {
        return refuse(end_of(NO_NAME), end);
    };
    match shown(alloc, spec, name, rank) {
        Ok(answer) => put(answer.as_slice(), end_of(ANSWERED), text, end),
        Err(fault) => refuse(show_end(fault), end),
    }
}

fn shown(alloc: Global, spec: &[u8], name: &str, rank: u64) -> Result<Vec<u8>, ShowFault>
    ensures shown { IfOk result (λ text. IsShowingOf spec.now name.now (Rank rank) Json None text.items) }
    ensures refused { IfErr result (IsNotShown spec.now rank) }
{
    let mut out = Counted::new(Vec::new(alloc));
    match show(
        alloc,
        spec,
        name,
        WantedOrder::Rank(rank),
        ShowForm::Json,
        None,
        &mut out,
    ) {
        Ok(()) => Ok(out.into_inner()),
        Err(fault) => Err(fault),
    }
}
