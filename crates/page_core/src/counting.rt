//! How many orders a spec has.

ghost use Rattle.page_core.specs.Calls.{IsRanksCall};

use crate::ending::{ANSWERED, End, end_of, spec_end};
use spec_binding::spec_of;
use std::alloc::Global;

/// How many orders a spec has, or 0 where its bytes are refused.
#[unsafe(no_mangle)]
pub extern "C" fn page_ranks(alloc: Global, spec: &[u8], end: &mut End) -> u64
    ensures { IsRanksCall spec.now end.new result }
{
    match spec_of(alloc, spec) {
        Ok(spec) => {
            *end = end_of(ANSWERED);
            spec.ranks()
        }
        Err(fault) => {
            *end = spec_end(fault);
            0
        }
    }
}
