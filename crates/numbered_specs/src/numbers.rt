ghost use Rattle.std.specs.Prelude.{◌≡◌, ◌<◌, ◌↔◌, length, get_or, [], IfOk, MatchOption};
ghost use Rattle.std.specs.List.{Contains};
ghost use Rattle.lock_modes.specs.Resource.{resource_at};
ghost use Rattle.numbered_specs.specs.Numbers.{place_of, resource_of, plans_of, HasNumber, IsNumbering};

use crate::named::all_named;
use crate::numbering::{number_in, step_plans};
use crate::request::{NumberedRequest, ResourceNumber, StepPlans};
use bound_specs::Spec;
use lock_modes::{Place, Resource};
use std::alloc::{AllocError, Global};
use std::marker::Model;

/// The resources that the statements of a spec ask for, and what each statement of its steps asks for by their numbers.
///
/// Contracts see the list of the resources, which rises, and the plans of each step.
#[derive(Drop)]
pub struct SpecNumbers {
    resources: Vec<Resource>,
    steps: Vec<StepPlans>,
}

impl Model for SpecNumbers {
    ghost use Rattle.std.specs.Coded.{codes};
    ghost use Rattle.numbered_specs.specs.Numbers.{Numbers};
    ghost use Rattle.numbered_specs.specs.Kept.{numbers_of, IsKept};
    ghost use Rattle.numbered_specs.specs.contracts.request.NumberedRequest as request;
    ghost use Rattle.lock_modes.specs.contracts.resource.Resource as resource;

    ghost Value = { Numbers };

    ghost coded = { Prim.hlevel (codes, request.the_row.coded, resource.the_row.coded) };

    ghost view = { λ n. numbers_of n.resources.items n.steps.items };

    ghost invariant = { λ n. IsKept n.resources.items n.steps.items };
}

impl SpecNumbers {
    /// Numbers the resources that the statements of a spec ask for: those of its setups, of its sessions' setups and of its steps. It fails for
    /// want of memory alone.
    ///
    /// Each row that ever lies in a table with a key lies at a key that some statement has inserted, and so asked for: it has a number too.
    pub fn of_spec(alloc: Global, spec: &Spec) -> Result<SpecNumbers, AllocError>
        ensures { IfOk result (λ numbers. IsNumbering spec.now.run numbers) }
    {
        let resources = all_named(alloc, spec)?;
        let steps = step_plans(alloc, spec, resources.as_slice())?;
        Ok(SpecNumbers { resources, steps })
    }

    /// How many resources there are. Their places are the numbers below.
    pub fn count(&self) -> usize
        ensures { result ≡ length self.now.resources }
    {
        self.resources.len()
    }

    /// The resource with a number of this spec.
    pub fn resource(&self, number: ResourceNumber) -> Place<'_>
        requires { HasNumber self.now.resources number }
        ensures { resource_at result ≡ resource_of self.now.resources number }
    {
        self.resources[number.index].place()
    }

    /// The number of a resource, none where no statement asks for it.
    pub fn number_of(&self, resource: &Resource) -> Option<ResourceNumber>
        ensures { MatchOption result
            (Contains self.now.resources resource.now → ⊥)
            (λ number. HasNumber self.now.resources number × (resource_of self.now.resources number ≡ resource.now)) }
    {
        number_in(self.resources.as_slice(), resource)
    }

    /// What a statement of a step asks for, in order: its lock plan by numbers. That is nothing where the spec has no such step or statement.
    pub fn plan(&self, step: u8, statement: usize) -> &[NumberedRequest]
        ensures { result.now ≡ get_or (plans_of self.now.plans step) statement [] }
    {
        match self.steps.get(step as usize) {
            Some(plans) => plans.plan(statement),
            None => &[],
        }
    }
}
