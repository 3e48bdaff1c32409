//! All that is asked of the classes of a spec.

ghost use Rattle.std.specs.Prelude.{IfErr, IfOk};
ghost use Rattle.asked_classes.specs.Asking.{IsAsked, IsRefused};

use crate::expectations::{AskedExpectation, expectations_of};
use crate::fault::AskedFault;
use crate::filters::filters_of;
use crate::looks::{AskedLook, looks_of};
use binding_model::Table;
use bound_specs::Spec;
use order_classes::Filter;
use std::alloc::Global;
use wanted_classes::WantedClasses;

/// What is asked of the classes of a spec.
#[derive(Drop)]
pub struct AskedClasses<'a> {
    /// An order is asked for where it passes all of these.
    pub filters: Vec<Filter>,
    /// What is looked at of what each class leaves.
    pub looks: Vec<AskedLook<'a>>,
    /// What is expected of each order that is asked for.
    pub expectations: Vec<AskedExpectation<'a>>,
}

/// What is asked of the classes of a spec with these tables, by what is wanted.
pub fn asked_of<'a>(
    alloc: Global,
    spec: &Spec,
    tables: &[Table],
    wanted: &WantedClasses<'a>,
) -> Result<AskedClasses<'a>, AskedFault<'a>>
    ensures asked { IfOk result (IsAsked spec.now tables.now wanted.now) }
    ensures refused { IfErr result (IsRefused spec.now tables.now wanted.now) }
{
    let Ok(wanted_filters) = wanted.all_filters(alloc) else {
        return Err(AskedFault::NoMemory);
    };
    let filters = match filters_of(alloc, spec, wanted.sample, wanted_filters.as_slice()) {
        Ok(filters) => filters,
        Err(fault) => return Err(fault),
    };
    let looks = match looks_of(alloc, tables, wanted.queries.as_slice()) {
        Ok(looks) => looks,
        Err(fault) => return Err(fault),
    };
    match expectations_of(alloc, tables, wanted.expectations.as_slice()) {
        Ok(expectations) => Ok(AskedClasses {
            filters,
            looks,
            expectations,
        }),
        Err(fault) => Err(fault),
    }
}
