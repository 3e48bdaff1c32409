//! What steps ask for, by the numbers of resources.

ghost use Rattle.std.specs.Prelude.{◌≡◌, ◌++◌, IfOk, OnOk, length, map};
ghost use Rattle.std.specs.List.{list_all};
ghost use Rattle.numbered_specs.specs.Numbers.{IsNumbering, plans_of};
ghost use Rattle.plan_pairs.specs.Requests.{all_fit, fit, requests_in};

use bound_specs::Spec;
use lock_modes::compatible;
use numbered_specs::{NumberedRequest, SpecNumbers};
use std::alloc::{AllocError, Global};
use std::marker::Model;

/// What the statements of a step ask for, in order, seen by contracts as the list of it.
#[derive(Drop)]
pub(crate) struct StepRequests {
    requests: Vec<NumberedRequest>,
}

impl Model for StepRequests {
    ghost use Rattle.std.specs.Prelude.{List};
    ghost use Rattle.std.specs.Coded.{codes};
    ghost use Rattle.numbered_specs.specs.declared.request.NumberedRequest.{NumberedRequest as One};
    ghost use Rattle.numbered_specs.specs.contracts.request.NumberedRequest as request;

    ghost Value = { List One };

    ghost coded = { Prim.hlevel (codes, request.the_row.coded) };

    ghost view = { λ s. s.requests.items };
}

impl StepRequests {
    /// What the first so many statements of a step ask for.
    fn of_step(
        alloc: Global,
        numbers: &SpecNumbers,
        step: u8,
        statements: usize,
    ) -> Result<StepRequests, AllocError>
        requires { length (plans_of numbers.now.plans step) ≡ statements }
        ensures { IfOk result (λ requests. requests ≡ requests_in (plans_of numbers.now.plans step)) }
    {
        let mut requests = Vec::new(alloc);
        for statement in 0..statements {
            push_all(&mut requests, numbers.plan(step, statement))?;
        }
        Ok(StepRequests { requests })
    }

    /// Whether each mode that it asks for goes with each that others ask for on the same resource.
    pub(crate) fn all_fit(&self, others: &StepRequests) -> bool
        ensures { result ≡ all_fit self.now others.now }
    {
        self.requests
            .iter()
            .all(|request| fits_all(request, others.requests.as_slice()))
    }
}

fn push_all(requests: &mut Vec<NumberedRequest>, plan: &[NumberedRequest]) -> Result<(), AllocError>
    ensures { OnOk result (requests.new.items ≡ requests.old.items ++ plan.now) }
{
    for request in plan {
        requests.push(*request)?;
    }
    Ok(())
}

fn fits_all(request: &NumberedRequest, others: &[NumberedRequest]) -> bool
    ensures { result ≡ list_all (fit request.now) others.now }
{
    others.iter().all(|other| fit(request, other))
}

/// Whether two requests are of different resources, or of modes that go together.
fn fit(request: &NumberedRequest, other: &NumberedRequest) -> bool
    ensures { result ≡ fit request.now other.now }
{
    request.resource != other.resource || compatible(request.mode, other.mode)
}

/// What each step of a spec asks for.
pub(crate) fn requests_by_step(
    alloc: Global,
    spec: &Spec,
    numbers: &SpecNumbers,
) -> Result<Vec<StepRequests>, AllocError>
    requires { IsNumbering spec.now.run numbers.now }
    ensures { IfOk result (λ steps. steps.items ≡ map requests_in numbers.now.plans) }
{
    let mut steps = Vec::with_capacity(alloc, spec.steps() as usize)?;
    for step in 0..spec.steps() {
        let count = spec.statements(step).len();
        steps.push(StepRequests::of_step(alloc, numbers, step, count)?)?;
    }
    Ok(steps)
}
