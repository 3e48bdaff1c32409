//! Lock plans by the numbers of resources that rise.

ghost use Rattle.std.specs.Prelude.{◌≡◌, ◌<◌, length, map, get_or, All, IfOk, MatchOption};
ghost use Rattle.std.specs.List.{Contains};
ghost use Rattle.std.specs.List.Sorted.{IsStrictlySortedBy};
ghost use Rattle.lock_modes.specs.Resource.{resource_cmp, resource_at};
ghost use Rattle.bound_statements.specs.Plan.{HasKeys, IsShort};
ghost use Rattle.numbered_specs.specs.Numbers.{asked_by, asked_in, resource_of, ArePlans, HasNumber, IsPlan, NamesAll};
ghost use Rattle.numbered_specs.specs.Kept.{AreThere, AreStepPlans};

use crate::request::{NumberedPlan, NumberedRequest, ResourceNumber, StepPlans};
use bound_specs::Spec;
use bound_statements::{Bound, lock_plan};
use lock_modes::{Place, Resource};
use std::alloc::{AllocError, Global};

/// The plans of all steps of a spec.
pub(crate) fn step_plans(
    alloc: Global,
    spec: &Spec,
    resources: &[Resource],
) -> Result<Vec<StepPlans>, AllocError>
    requires { NamesAll spec.now.run resources.now }
    ensures { IfOk result (λ steps. AreStepPlans resources.now spec.now.run steps.items) }
{
    let mut steps = Vec::with_capacity(alloc, spec.steps() as usize)?;
    for step in 0..spec.steps() {
        steps.push(plans_of(alloc, spec.statements(step), resources)?)?;
    }
    Ok(steps)
}

/// The plans of the statements of a step.
fn plans_of(
    alloc: Global,
    statements: &[Bound],
    resources: &[Resource],
) -> Result<StepPlans, AllocError>
    requires keys { All HasKeys statements.now }
    requires short { All IsShort statements.now }
    requires rise { IsStrictlySortedBy resource_cmp resources.now }
    requires there { AreThere resources.now (asked_in statements.now) }
    ensures { IfOk result (ArePlans resources.now statements.now) }
{
    let mut plans = Vec::with_capacity(alloc, statements.len())?;
    for statement in statements {
        plans.push(plan_of(alloc, statement, resources)?)?;
    }
    Ok(StepPlans { plans })
}

/// The plan of a statement.
fn plan_of(
    alloc: Global,
    statement: &Bound,
    resources: &[Resource],
) -> Result<NumberedPlan, AllocError>
    requires keys { HasKeys statement.now }
    requires short { IsShort statement.now }
    requires rise { IsStrictlySortedBy resource_cmp resources.now }
    requires there { AreThere resources.now (asked_by statement.now) }
    ensures { IfOk result (IsPlan resources.now statement.now) }
{
    let mut requests = Vec::new(alloc);
    for number in 0..u8::MAX {
        let Some((place, mode)) = lock_plan(statement, number) else {
            return Ok(NumberedPlan { requests });
        };
        let resource = number_at(resources, &place.to_resource()?);
        requests.push(NumberedRequest { resource, mode })?;
    }
    Ok(NumberedPlan { requests })
}

/// The number of a resource that is there.
fn number_at(resources: &[Resource], resource: &Resource) -> ResourceNumber
    requires rise { IsStrictlySortedBy resource_cmp resources.now }
    requires there { Contains resources.now resource.now }
    ensures known { HasNumber resources.now result }
    ensures same { resource_of resources.now result ≡ resource.now }
{
    match number_in(resources, resource) {
        Some(number) => number,
        None => ResourceNumber { index: 0 },
    }
}

/// The number of a resource, none where it is not there.
pub(crate) fn number_in(resources: &[Resource], resource: &Resource) -> Option<ResourceNumber>
    requires { IsStrictlySortedBy resource_cmp resources.now }
    ensures { MatchOption result
        (Contains resources.now resource.now → ⊥)
        (λ number. HasNumber resources.now number × (resource_of resources.now number ≡ resource.now)) }
{
    match resources.binary_search(resource) {
        Ok(index) => Some(ResourceNumber { index }),
        Err(_) => None,
    }
}
