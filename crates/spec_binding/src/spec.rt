//! A spec from the bytes of its file.

ghost use Rattle.std.specs.Prelude.{◌≡◌, IfErr, IfOk, MatchResult};
ghost use Rattle.bound_specs.specs.Binding.{IsFileAt, IsFileOf};
ghost use Rattle.bound_specs.specs.Spec.{SpecFile};
ghost use Rattle.spec_binding.specs.SpecFiles.{IsMemory, IsNoSpec};

use crate::binding::{bind, bind_at};
use binding_model::BindError;
use bound_specs::Spec;
use bound_statements::Level;
use spec_reader::{SpecError, read_spec};
use std::alloc::{AllocError, Global};

/// Why bytes are no spec file. The first is tried before the second, but for want of memory.
#[derive(Clone, Copy, PartialEq, Eq)]
pub enum SpecFault {
    /// The bytes are no spec.
    Text(SpecError),
    /// The statements of the spec are refused.
    Binding(BindError),
}

/// The spec that bytes are the file of.
pub fn spec_of(alloc: Global, bytes: &[u8]) -> Result<Spec, SpecFault>
    ensures file { IfOk result (λ spec. IsFileOf bytes.now spec) }
    // A spec file is bound, to its spec, unless memory runs out.
    ensures complete { (file : SpecFile) → IsFileOf bytes.now file → MatchResult result (λ spec. spec ≡ file) IsMemory }
    ensures refused { IfErr result (IsNoSpec bytes.now) }
{
    let text = match read_spec(alloc, bytes) {
        Ok(text) => text,
        Err(error) => return Err(SpecFault::Text(error)),
    };
    match bind(alloc, &text) {
        Ok(spec) => Ok(spec),
        Err(error) => Err(SpecFault::Binding(error)),
    }
}

/// The spec that bytes are the file of, where this level is asked for, which each transaction has that names none; or where levels are not asked for.
pub fn spec_at(alloc: Global, bytes: &[u8], levels: Option<Level>) -> Result<Spec, SpecFault>
    ensures file { IfOk result (λ spec. IsFileAt bytes.now spec × (spec.asked ≡ levels)) }
    // A spec file is bound, to its spec, unless memory runs out.
    ensures complete { (file : SpecFile) → IsFileAt bytes.now file → file.asked ≡ levels → MatchResult result (λ spec. spec ≡ file) IsMemory }
    // It is refused at each level for what it is refused for where none is asked for.
    ensures refused { IfErr result (IsNoSpec bytes.now) }
{
    let text = match read_spec(alloc, bytes) {
        Ok(text) => text,
        Err(error) => return Err(SpecFault::Text(error)),
    };
    match bind_at(alloc, &text, levels) {
        Ok(spec) => Ok(spec),
        Err(error) => Err(SpecFault::Binding(error)),
    }
}

/// The spec of a text that was bound before, so that only memory can be wanted for it.
pub fn bound_again(alloc: Global, text: &str) -> Result<Spec, AllocError>
    requires known { (file : SpecFile) × IsFileOf text.now file }
    ensures { (file : SpecFile) → IsFileOf text.now file → IfOk result (λ spec. spec ≡ file) }
{
    match spec_of(alloc, text.as_bytes()) {
        Ok(spec) => Ok(spec),
        Err(fault) => Err(not_bound(fault)),
    }
}

/// A refusal of a spec file that has no other reason than want of memory.
fn not_bound(_fault: SpecFault) -> AllocError
    requires { IsMemory _fault }
{
    AllocError
}
