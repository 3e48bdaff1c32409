//! The classes that are asked for.

ghost use Rattle.std.specs.Prelude.{◌≡◌, List, false, IfOk, option_map, unwrap_or};
ghost use Rattle.binding_model.specs.declared.tables.Table.{Table as Declared};
ghost use Rattle.bound_specs.specs.Spec.{Spec as Run};
ghost use Rattle.order_classes.specs.Asked.{pass_all};
ghost use Rattle.class_rows.specs.Pages.{letters_of};
ghost use Rattle.class_rows.specs.Telling.{ArePassing, IsSerialOf};

use crate::anomaly::anomaly_of;
use crate::found::FoundOrders;
use crate::letters::letters_of;
use order_classes::{Filter, Letters, Shows, pass_all};
use spec_classes::OrderClass;
use std::alloc::{AllocError, Global};

/// A class of orders that are asked for, with its letters.
#[derive(Clone, Copy)]
pub(crate) struct Passing<'a> {
    pub(crate) class: &'a OrderClass,
    pub(crate) letters: Letters,
}

/// The classes that pass all filters, each with its letters.
pub(crate) fn passing_classes<'a>(
    alloc: Global,
    found: &FoundOrders<'a>,
    filters: &[Filter],
) -> Result<Vec<Passing<'a>>, AllocError>
    ensures { (tables : List Declared) (run : Run) → IsSerialOf tables run (option_map (λ s. s.now) found.now.serial)
        → IfOk result (λ passing. ArePassing tables run filters.now found.now.classes.now passing.items) }
{
    let mut passing = Vec::new(alloc);
    for place in 0..found.classes.len() {
        let class = &found.classes[place];
        let not_serial = anomaly_of(alloc, found.serial, &class.shows)?;
        if passes(filters, &class.shows, not_serial) {
            passing.push(Passing {
                class,
                letters: letters_of(&class.shows, not_serial),
            })?;
        }
    }
    Ok(passing)
}

/// Whether what is shown passes all filters. What is not told of R holds of nothing.
fn passes(filters: &[Filter], shows: &Shows, not_serial: Option<bool>) -> bool
    ensures { result ≡ pass_all (unwrap_or not_serial false) filters.now shows.now }
{
    pass_all(filters, shows, not_serial.unwrap_or(false))
}
