//! How classes come to be told.

ghost use Rattle.std.specs.Prelude.{List, IfOk};
ghost use Rattle.binding_model.specs.declared.tables.Table.{Table as Declared};
ghost use Rattle.bound_specs.specs.Spec.{Spec as Run};
ghost use Rattle.spec_schedules.specs.declared.kind.Kind.{Kind as Sort};
ghost use Rattle.class_rows.specs.Pages.{IsClassed};
ghost use Rattle.class_rows.specs.Telling.{AreFound};

use crate::asked::Asked;
use crate::found::FoundOrders;
use crate::passing::passing_classes;
use crate::rows::{Classed, rows_of};
use crate::totals::{orders_of, totals_of};
use spec_classes::counts_add_up;
use std::alloc::{AllocError, Global};

/// The orders that are asked for, in classes as they are told.
pub fn classed(
    alloc: Global,
    found: &FoundOrders<'_>,
    asked: Asked<'_>,
) -> Result<Classed, AllocError>
    requires { (kind : Sort) × (tables : List Declared) × (run : Run) × AreFound kind tables run found.now }
    ensures { (kind : Sort) (tables : List Declared) (run : Run) → AreFound kind tables run found.now
        → IfOk result (IsClassed kind tables run asked.entry.filters.now asked.entry.by) }
{
    counts_add_up();
    let passing = passing_classes(alloc, found, asked.filters)?;
    let rows = rows_of(alloc, asked.by, passing.as_slice())?;
    let totals = totals_of(found.serial.is_some(), passing.as_slice(), rows.as_slice());
    Ok(Classed {
        orders: orders_of(found.classes),
        totals,
        rows,
    })
}
