//! A list of stretches that grows by copies of its own.

ghost use Rattle.std.specs.Prelude.{◌≡◌, ◌+◌, ◌-◌, ◌<◌, ◌≤◌, OnOk, OnErr};
ghost use Rattle.class_stretches.specs.Stretches.{end_of, AreStretches};
ghost use Rattle.class_stretches.specs.Copying.{IsCopiedList};

use crate::list::{end_of_list, place_of, put};
use crate::stretch::Stretch;
use std::alloc::AllocError;

/// Puts copies of the stretches from a rank on behind the list, up to a new end.
pub(crate) fn copy_list(list: &mut Vec<Stretch>, from: u64, end: u64) -> Result<(), AllocError>
    requires stretches { AreStretches 0 list.old.items }
    requires some { end_of list.old.items < end }
    requires inside { from + (end - end_of list.old.items) ≤ end_of list.old.items }
    ensures ok { OnOk result (IsCopiedList list.old.items list.new.items from end) }
    ensures err { OnErr result (IsCopiedList list.old.items list.new.items from (end_of list.new.items)) }
{
    let start = end_of_list(list);
    let source_end = from + (end - start);
    let mut place = place_of(list, from);
    let mut at = from;
    while at < source_end {
        let stretch = list[place];
        let upto = stretch.end.min(source_end);
        put(list, start + (upto - from), stretch.class)?;
        at = upto;
        place += 1;
    }
    Ok(())
}
