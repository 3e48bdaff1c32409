//! The tables that a spec declares.

ghost use Rattle.std.specs.Prelude.{◌≡◌, IfOk};
ghost use Rattle.binding_model.specs.declared.error.BindStop.TheVariants.{Memory};
ghost use Rattle.spec_texts.specs.Texts.{Declares};

use crate::reading::read_again;
use binding_model::{BindStop, Table};
use bound_specs::Spec;
use spec_binding::setups;
use std::alloc::{AllocError, Global};

/// The tables that the spec's main setups declare, in the order of their numbers. It fails for want of memory alone.
pub fn tables_of(alloc: Global, spec: &Spec) -> Result<Vec<Table>, AllocError>
    ensures { IfOk result (λ tables. Declares spec.now.text spec.now tables.items) }
{
    spec.known();
    let text = read_again(alloc, spec)?;
    let mut tables = Vec::new(alloc);
    match setups(alloc, &mut tables, &text.front.setups) {
        Ok(_setups) => Ok(tables),
        Err(stop) => {
            wants_memory(stop);
            Err(AllocError)
        }
    }
}

/// A stop that has no other reason than want of memory.
fn wants_memory(_stop: BindStop)
    requires { _stop ≡ Memory }
{}
