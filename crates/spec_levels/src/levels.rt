//! Under which level a spec stands.

ghost use Rattle.std.specs.Prelude.{IfOk};
ghost use Rattle.spec_levels.specs.Levels.{AreLevels};

use bound_specs::Spec;
use bound_statements::Level;
use spec_texts::other_level_lines;
use std::alloc::{AllocError, Global};

/// Under which level a spec stands, and where its file says another one.
#[derive(Drop)]
pub struct Levels {
    /// The level of transactions that name none; none where levels are not asked for.
    pub asked: Option<Level>,
    /// The lines of the file on which a transaction begins with another level than that; where none is asked for, than SERIALIZABLE.
    pub other_lines: Vec<usize>,
}

/// The levels of a spec. It fails for want of memory alone.
pub fn levels_of(alloc: Global, spec: &Spec) -> Result<Levels, AllocError>
    ensures { IfOk result (AreLevels spec.now.text spec.now) }
{
    let other_lines = other_level_lines(alloc, spec)?;
    Ok(Levels {
        asked: spec.levels(),
        other_lines,
    })
}
