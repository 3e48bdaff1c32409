//! What a book keeps of its spec.

ghost use Rattle.std.specs.Prelude.{◌≡◌, IfOk, None, string_bytes};
ghost use Rattle.fact_books.specs.About.{FileOf, one_file_of, IsShapeOf};

use bound_specs::Spec;
use perm_ranks::Shape;
use std::alloc::{AllocError, Global};

/// The spec's text, how many ranks it has, and their shape where they are words. Contracts see the file that the text is, too.
pub(crate) struct About {
    pub(crate) text: String,
    pub(crate) ranks: u64,
    pub(crate) shape: Option<Shape>,
    pub(crate) ghost known: { FileOf (string_bytes text) } by { one_file_of (string_bytes text) },
}

// Written out and not derived, so that who owns one calls this and does not let its parts go one by one.
impl Drop for About {
    fn drop(self) {
        let About {
            text: _text,
            ranks: _,
            shape: _shape,
        } = self;
    }
}

impl About {
    ghost use Rattle.fact_books.specs.Books.{IsAboutOf};

    /// What is kept of a spec for which levels are not asked for, which its text alone tells.
    pub(crate) fn of(alloc: Global, spec: &Spec) -> Result<About, AllocError>
        requires { spec.now.asked ≡ None }
        ensures { IfOk result (IsAboutOf spec.now) }
    {
        spec.known();
        let text = String::from_str(alloc, spec.text())?;
        Ok(About {
            text,
            ranks: spec.ranks(),
            shape: shape_of(spec),
        })
    }
}

pub(crate) fn shape_of(spec: &Spec) -> Option<Shape>
    ensures { IsShapeOf spec.now.run result }
{
    match spec.shape() {
        Some(shape) => Some(shape.copy()),
        None => None,
    }
}
