//! The spec of a book.

ghost use Rattle.std.specs.Prelude.{◌≡◌, IfOk};
ghost use Rattle.spec_binding.specs.SpecFiles.{IsMemory};

use bound_specs::Spec;
use fact_books::Book;
use spec_binding::{SpecFault, spec_of};
use std::alloc::{AllocError, Global};

/// The spec of a book. It was bound when the book was made, so that it is refused for want of memory alone.
pub fn spec_of_book(alloc: Global, book: &Book) -> Result<Spec, AllocError>
    ensures { IfOk result (λ spec. spec ≡ book.now.file) }
{
    book.known();
    match spec_of(alloc, book.text().as_bytes()) {
        Ok(spec) => Ok(spec),
        Err(fault) => {
            wants_memory(fault);
            Err(AllocError)
        }
    }
}

/// A refusal of a text that was bound before has no other reason than want of memory.
fn wants_memory(_fault: SpecFault)
    requires { IsMemory _fault }
{}
