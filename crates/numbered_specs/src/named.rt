//! The resources that statements ask for.

ghost use Rattle.std.specs.Prelude.{◌≡◌, ◌++◌, ◌↔◌, All, IfOk, OnOk};
ghost use Rattle.std.specs.List.{Contains};
ghost use Rattle.std.specs.List.Sorted.{IsStrictlySortedBy};
ghost use Rattle.lock_modes.specs.Resource.{resource_cmp};
ghost use Rattle.bound_statements.specs.Plan.{HasKeys, IsShort};
ghost use Rattle.numbered_specs.specs.Numbers.{asked_by, asked_in, asked_of, blocks_of, NamesAll};

use bound_specs::Spec;
use bound_statements::{Bound, lock_plan};
use lock_modes::Resource;
use std::alloc::{AllocError, Global};

/// The resources that the statements of a spec ask for, each once, in their order.
pub(crate) fn all_named(alloc: Global, spec: &Spec) -> Result<Vec<Resource>, AllocError>
    ensures { IfOk result (λ resources. NamesAll spec.now.run resources.items) }
{
    let mut resources = asked(alloc, spec)?;
    resources.sort_unstable();
    resources.dedup();
    Ok(resources)
}

/// The resources that the statements of a spec ask for, as often as they do.
fn asked(alloc: Global, spec: &Spec) -> Result<Vec<Resource>, AllocError>
    ensures { IfOk result (λ resources. resources.items ≡ asked_of (blocks_of spec.now.run)) }
{
    let mut resources = Vec::new(alloc);
    for block in spec.setups() {
        push_block(&mut resources, block.statements())?;
    }
    for block in spec.session_setups() {
        push_block(&mut resources, block.statements())?;
    }
    for step in 0..spec.steps() {
        push_block(&mut resources, spec.statements(step))?;
    }
    Ok(resources)
}

/// Adds what these statements ask for.
fn push_block(resources: &mut Vec<Resource>, statements: &[Bound]) -> Result<(), AllocError>
    requires keys { All HasKeys statements.now }
    requires short { All IsShort statements.now }
    ensures { OnOk result (resources.new.items ≡ resources.old.items ++ asked_in statements.now) }
{
    for statement in statements {
        push_plan(resources, statement)?;
    }
    Ok(())
}

/// Adds what a statement asks for.
fn push_plan(resources: &mut Vec<Resource>, statement: &Bound) -> Result<(), AllocError>
    requires keys { HasKeys statement.now }
    requires short { IsShort statement.now }
    ensures { OnOk result (resources.new.items ≡ resources.old.items ++ asked_by statement.now) }
{
    for number in 0..u8::MAX {
        let Some((place, _mode)) = lock_plan(statement, number) else {
            return Ok(());
        };
        resources.push(place.to_resource()?)?;
    }
    Ok(())
}
