//! What is wrong with a spec, and how much it has where nothing is.

ghost use Rattle.std.specs.Prelude.{IfErr, IfOk};
ghost use Rattle.spec_checks.specs.Checking.{IsCheck};
ghost use Rattle.page_core.specs.Calls.{IsCheckCall, IsExplainedCall, IsNotChecked};

use crate::ending::{ANSWERED, End, NO_MEMORY, NO_NAME, end_of, level_end, spec_end};
use crate::names::name_of;
use crate::putting::{put, refuse};
use spec_binding::SpecFault;
use spec_checks::{CheckFault, check};
use spec_findings::explained_faults;
use std::alloc::Global;
use transcripts::Counted;

/// What `isofarm check SPEC` prints: of a spec how much it has, and what of it has no effect. Of bytes that are refused the text is what stands
/// behind the first line of the fault, which the end tells: where each fault is and what is wrong there, under the name of the spec. Of a spec that
/// says something wrong of levels the end tells all.
#[unsafe(no_mangle)]
pub extern "C" fn page_check(
    alloc: Global,
    spec: &[u8],
    name: &[u8],
    text: &mut [u8],
    end: &mut End,
) -> usize
    ensures { IsCheckCall spec.now name.now text.old text.new end.new result }
{
    let Some(name) = name_of(name) else {
        return refuse(end_of(NO_NAME), end);
    };
    match checked(alloc, spec) {
        Ok(answer) => put(answer.as_slice(), end_of(ANSWERED), text, end),
        Err(CheckFault::Spec(fault)) => put_explained(alloc, spec, name, fault, text, end),
        Err(CheckFault::Level(fault)) => refuse(level_end(fault), end),
        Err(CheckFault::NoMemory | CheckFault::Write(_)) => refuse(end_of(NO_MEMORY), end),
    }
}

fn checked(alloc: Global, spec: &[u8]) -> Result<Vec<u8>, CheckFault>
    ensures told { IfOk result (λ text. IsCheck spec.now text.items) }
    ensures refused { IfErr result (IsNotChecked spec.now) }
{
    let mut out = Counted::new(Vec::new(alloc));
    match check(alloc, spec, &mut out) {
        Ok(()) => Ok(out.into_inner()),
        Err(fault) => Err(fault),
    }
}

/// Puts what is explained of bytes that are refused.
fn put_explained(
    alloc: Global,
    spec: &[u8],
    name: &str,
    fault: SpecFault,
    text: &mut [u8],
    end: &mut End,
) -> usize
    ensures { IsExplainedCall spec.now name.now fault text.old text.new end.new result }
{
    let ended = spec_end(fault);
    if ended.fault == NO_MEMORY {
        return refuse(ended, end);
    }
    match explained_faults(alloc, name, spec, fault) {
        Ok(told) => put(told.as_bytes(), ended, text, end),
        Err(_) => refuse(end_of(NO_MEMORY), end),
    }
}
