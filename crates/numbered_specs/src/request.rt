ghost use Rattle.std.specs.Prelude.{◌≡◌, ◌<◌, length, get_or, []};

use lock_modes::Mode;
use std::marker::Model;

/// The number of a resource of a spec: its place among all that the spec's statements ask for, in their order. It says nothing of another spec.
#[derive(Clone, Copy, PartialEq, Eq)]
pub struct ResourceNumber {
    pub(crate) index: usize,
}

impl ResourceNumber {
    ghost use Rattle.numbered_specs.specs.Numbers.{place_of};

    /// Its place, from 0 on, by which a table of the spec's resources can find it.
    pub fn place(self) -> usize
        ensures { result ≡ place_of self }
    {
        self.index
    }
}

/// A request for a lock on the resource with this number.
#[derive(Clone, Copy, PartialEq, Eq)]
pub struct NumberedRequest {
    pub resource: ResourceNumber,
    pub mode: Mode,
}

/// What a statement asks for, in order, seen by contracts as the list of its requests.
#[derive(Drop)]
pub struct NumberedPlan {
    pub(crate) requests: Vec<NumberedRequest>,
}

impl Model for NumberedPlan {
    ghost use Rattle.std.specs.Prelude.{List};
    ghost use Rattle.std.specs.Coded.{codes};
    ghost use Rattle.numbered_specs.specs.declared.request.NumberedRequest.{NumberedRequest as One};
    ghost use Rattle.numbered_specs.specs.contracts.request.NumberedRequest as request;

    ghost Value = { List One };

    ghost coded = { Prim.hlevel (codes, request.the_row.coded) };

    ghost view = { λ p. p.requests.items };
}

impl NumberedPlan {
    pub fn requests(&self) -> &[NumberedRequest]
        ensures { result.now ≡ self.now }
    {
        self.requests.as_slice()
    }
}

/// The plans of a step's statements, in their order, seen by contracts as the list of them.
#[derive(Drop)]
pub struct StepPlans {
    pub(crate) plans: Vec<NumberedPlan>,
}

impl Model for StepPlans {
    ghost use Rattle.std.specs.Prelude.{List};
    ghost use Rattle.std.specs.Coded.{codes};
    ghost use Rattle.numbered_specs.specs.declared.request.NumberedRequest.{NumberedRequest as One};
    ghost use Rattle.numbered_specs.specs.contracts.request.NumberedRequest as request;

    ghost Value = { List (List One) };

    ghost coded = { Prim.hlevel (codes, request.the_row.coded) };

    ghost view = { λ p. p.plans.items };
}

impl StepPlans {
    /// What a statement asks for, nothing where there is none.
    pub(crate) fn plan(&self, statement: usize) -> &[NumberedRequest]
        ensures { result.now ≡ get_or self.now statement [] }
    {
        match self.plans.get(statement) {
            Some(plan) => plan.requests(),
            None => &[],
        }
    }
}
