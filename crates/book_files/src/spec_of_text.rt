//! The spec that a book names by its text.

ghost use Rattle.std.specs.Prelude.{◌≡◌, ◌≢◌, ◌⊎◌};
ghost use Rattle.spec_reader.specs.declared.error.Kind.TheVariants as spec_kind;
ghost use Rattle.binding_model.specs.declared.error.BindErrorKind.TheVariants as bind_kind;
ghost use Rattle.spec_binding.specs.SpecFiles.{IsMemory};
ghost use Rattle.book_format.specs.declared.error.BookError.TheVariants as book_error;
ghost use Rattle.book_format.specs.Reading.{Meets};
ghost use Rattle.book_format.specs.ReadingBooks.{IsSpecText};

use book_format::BookError;
use bound_specs::Spec;
use spec_binding::{BindErrorKind, SpecFault, spec_of};
use spec_reader::SpecErrorKind;
use std::alloc::Global;

/// The spec that a text is the file of.
pub(crate) fn spec_of_text(alloc: Global, text: &str) -> Result<Spec, BookError>
    ensures { Meets (λ spec. spec) (IsSpecText text.now) result }
{
    match spec_of(alloc, text.as_bytes()) {
        Ok(spec) => Ok(spec),
        Err(fault) => Err(told_of(fault)),
    }
}

/// Want of memory is told as such, and any other fault as one of the spec.
fn told_of(fault: SpecFault) -> BookError
    ensures { (IsMemory fault × (result ≡ book_error.NoMemory)) ⊎ ((IsMemory fault → ⊥) × (result ≡ book_error.BadSpec)) }
{
    match fault {
        SpecFault::Text(error) => of_spec_kind(error.kind),
        SpecFault::Binding(error) => of_bind_kind(error.kind),
    }
}

fn of_spec_kind(kind: SpecErrorKind) -> BookError
    ensures { ((kind ≡ spec_kind.NoMemory) × (result ≡ book_error.NoMemory)) ⊎ ((kind ≢ spec_kind.NoMemory) × (result ≡ book_error.BadSpec)) }
{
    match kind {
        SpecErrorKind::NoMemory => BookError::NoMemory,
        _ => BookError::BadSpec,
    }
}

fn of_bind_kind(kind: BindErrorKind) -> BookError
    ensures { ((kind ≡ bind_kind.NoMemory) × (result ≡ book_error.NoMemory)) ⊎ ((kind ≢ bind_kind.NoMemory) × (result ≡ book_error.BadSpec)) }
{
    match kind {
        BindErrorKind::NoMemory => BookError::NoMemory,
        _ => BookError::BadSpec,
    }
}
