//! Reads the text of a bound spec again.

ghost use Rattle.std.specs.Prelude.{◌≡◌, IfOk};
ghost use Rattle.spec_reader.specs.declared.error.Kind.TheVariants.{NoMemory};
ghost use Rattle.spec_reader.specs.Text.{IsSpec};
ghost use Rattle.spec_reader.specs.Tree.{SpecTree};
ghost use Rattle.spec_reader.specs.Whole.{spec_tree};

use bound_specs::Spec;
use spec_reader::{SpecErrorKind, SpecText, read_spec};
use std::alloc::{AllocError, Global};

/// What the spec's text says. It was read before, so nothing but want of memory refuses it.
pub(crate) fn read_again(alloc: Global, spec: &Spec) -> Result<SpecText, AllocError>
    ensures { (tree : SpecTree) → IsSpec spec.now.text tree → IfOk result (λ text. spec_tree text ≡ tree) }
{
    spec.known();
    match read_spec(alloc, spec.text().as_bytes()) {
        Ok(text) => Ok(text),
        Err(error) => {
            wants_memory(error.kind);
            Err(AllocError)
        }
    }
}

/// A refusal that has no other reason than want of memory.
fn wants_memory(_kind: SpecErrorKind)
    requires { _kind ≡ NoMemory }
{}
