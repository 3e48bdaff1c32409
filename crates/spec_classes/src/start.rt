//! The machine at the start of a spec.

ghost use Rattle.std.specs.Prelude.{◌≡◌, ℕ, IfOk, IsErrOf};
ghost use Rattle.machine_model.specs.Start.{start};
ghost use Rattle.session_steps.specs.Refused.{IsRefusedBy};
ghost use Rattle.session_steps.specs.declared.error.StartError.{StartError};
ghost use Rattle.schedule_counts.specs.declared.counting.StatesError.TheVariants.{Start, TooMany};
ghost use Rattle.spec_classes.specs.Showing.{IsAtStart};

use bound_specs::Spec;
use marked_worlds::MarkedWorld;
use numbered_specs::SpecNumbers;
use schedule_counts::StatesError;
use std::alloc::{AllocError, Global};
use std::sync::Arc;

/// The machine at the start of a spec.
pub(crate) fn started(alloc: Global, spec: &Spec) -> Result<MarkedWorld<'_>, StatesError>
    ensures at { IfOk result (IsAtStart spec.now) }
    ensures refused { (error : StartError) → IsErrOf result (StatesError.Start error) → IsRefusedBy error (start spec.now.run) }
    ensures few { (noted : ℕ) → IsErrOf result (TooMany noted) → ⊥ }
{
    let numbers = SpecNumbers::of_spec(alloc, spec)?;
    let numbers = shared(alloc, numbers)?;
    Ok(MarkedWorld::start(alloc, spec, numbers)?)
}

fn shared(alloc: Global, numbers: SpecNumbers) -> Result<Arc<SpecNumbers>, AllocError>
    ensures { IfOk result (λ shared. shared.value ≡ numbers) }
{
    Ok(Arc::new(alloc, numbers)?)
}
