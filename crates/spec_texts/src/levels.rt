//! Isolation levels that transactions name, by their lines.

ghost use Rattle.std.specs.Prelude.{◌≡◌, ◌++◌, IfOk, OnOk};
ghost use Rattle.spec_texts.specs.Levels.{AreOtherLevelLines, AreLinesOf, AreRepeatableLines, lines_from, new_line};

use crate::reading::read_again;
use crate::statements::{SqlPart, statements_with};
use bound_specs::Spec;
use bound_statements::Level;
use fault_texts::place_of;
use file_blocks::sent_blocks;
use std::alloc::{AllocError, Global};

/// The lines of a spec's text on which a BEGIN names another isolation level than the one that is asked for, each once; where none is, than
/// SERIALIZABLE. It fails for want of memory alone.
pub fn other_level_lines(alloc: Global, spec: &Spec) -> Result<Vec<usize>, AllocError>
    ensures { IfOk result (λ lines. AreOtherLevelLines spec.now.text spec.now lines.items) }
{
    let level = Level::of_transaction(spec.levels());
    lines_of(alloc, spec, SqlPart::OtherLevel(level))
}

/// The lines on which one names REPEATABLE READ, each once. It fails for want of memory alone.
pub fn repeatable_lines(alloc: Global, spec: &Spec) -> Result<Vec<usize>, AllocError>
    ensures { IfOk result (λ lines. AreRepeatableLines spec.now.text spec.now lines.items) }
{
    lines_of(alloc, spec, SqlPart::RepeatableRead)
}

/// The lines of a spec's text on which statements with such a part begin, each once.
fn lines_of(alloc: Global, spec: &Spec, kind: SqlPart) -> Result<Vec<usize>, AllocError>
    ensures { IfOk result (λ lines. AreLinesOf kind spec.now.text spec.now lines.items) }
{
    spec.known();
    let file = read_again(alloc, spec)?;
    let blocks = sent_blocks(alloc, &file)?;
    let places = statements_with(alloc, kind, &blocks)?;
    lines_at(alloc, spec.text().as_bytes(), &places)
}

/// The lines of a text on which these places stand, each once where it stands beside itself.
pub fn lines_at(alloc: Global, text: &[u8], places: &[usize]) -> Result<Vec<usize>, AllocError>
    ensures { IfOk result (λ lines. lines.items ≡ lines_from text.now 0 places.now) }
{
    let mut lines = Vec::new(alloc);
    let mut last = 0;
    for place in places {
        let line = place_of(text, *place).line;
        push_line(last, line, &mut lines)?;
        last = line;
    }
    Ok(lines)
}

/// Pushes a line, unless it is the last one.
fn push_line(last: usize, line: usize, lines: &mut Vec<usize>) -> Result<(), AllocError>
    ensures { OnOk result (lines.new.items ≡ lines.old.items ++ new_line last line) }
{
    if line == last {
        return Ok(());
    }
    lines.push(line)?;
    Ok(())
}
