//! What the steps of a spec send, as the file has it.

ghost use Rattle.std.specs.Prelude.{◌≡◌, ◌++◌, All, length, map, IfOk};
ghost use Rattle.spec_reader.specs.Views.{session_tree, step_tree};
ghost use Rattle.spec_texts.specs.OneLine.{IsOneLine, one_line};
ghost use Rattle.spec_texts.specs.Texts.{AreStepLines, step_lines};

use crate::line::one_line;
use crate::reading::read_again;
use bound_specs::Spec;
use lock_modes::Text;
use spec_reader::{Session, Step};
use std::alloc::{AllocError, Global};

/// What each step sends, by its number: the text between its braces, on one line. Its white space and its comments are one blank between
/// two tokens, and none at the ends; what is quoted stands as it is, with a blank for each white space. It fails for want of memory alone.
pub fn statement_texts(alloc: Global, spec: &Spec) -> Result<Vec<Text>, AllocError>
    ensures lines { IfOk result (λ lines. AreStepLines spec.now.text spec.now lines.items) }
    ensures one_line { IfOk result (λ lines. All IsOneLine lines.items) }
    ensures each { IfOk result (λ lines. length lines.items ≡ length spec.now.run.steps) }
{
    spec.known();
    spec.ready();
    let text = read_again(alloc, spec)?;
    step_lines(alloc, &text.sessions)
}

/// The lines of all steps, in the order of the file.
fn step_lines(alloc: Global, sessions: &[Session]) -> Result<Vec<Text>, AllocError>
    ensures { IfOk result (λ lines. lines.items ≡ step_lines (map session_tree sessions.now)) }
{
    let mut lines = Vec::new(alloc);
    for session in sessions {
        push_lines(alloc, &session.steps, &mut lines)?;
    }
    Ok(lines)
}

fn push_lines(alloc: Global, steps: &[Step], lines: &mut Vec<Text>) -> Result<(), AllocError>
    ensures { IfOk result (λ _. lines.new.items ≡ lines.old.items ++ map (λ t. one_line t.block.text) (map step_tree steps.now)) }
{
    for step in steps {
        lines.push(one_line(alloc, &step.block.text)?)?;
    }
    Ok(())
}
