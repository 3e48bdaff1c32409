//! The faults of a file, explained one after another.

ghost use Rattle.std.specs.Prelude.{◌≡◌, ◌++◌, ℕ, List, IfOk, string_bytes};
ghost use Rattle.spec_reader.specs.Text.{IsSpec};
ghost use Rattle.spec_reader.specs.Whole.{spec_tree};
ghost use Rattle.spec_findings.specs.Told.{AreTold, TellsFaults, also_line};

use crate::faults::faults_of;
use crate::sentences::sentence_of;
use binding_model::BindError;
use fault_texts::{explained, file_sentence};
use file_blocks::{SentBlock, sent_blocks};
use spec_binding::SpecFault;
use spec_reader::{SpecText, read_spec};
use std::alloc::{AllocError, Global};

/// What is told of a file that is no spec, behind the line of its first fault: where that is and what is wrong there; and behind it, each behind
/// `also`, the faults of other statements. It fails for want of memory alone.
pub fn explained_faults(
    alloc: Global,
    path: &str,
    text: &[u8],
    fault: SpecFault,
) -> Result<String, AllocError>
    ensures { IfOk result (λ told. AreTold path.now text.now fault (string_bytes told)) }
{
    match fault {
        SpecFault::Text(error) => {
            explained(
                alloc,
                path,
                text,
                error.offset,
                file_sentence(error.kind, text),
            )
        }
        SpecFault::Binding(error) => match read_spec(alloc, text) {
            Ok(file) => told_of(alloc, path, text, &file, &error),
            Err(_) => Err(AllocError),
        },
    }
}

/// What is told of a file that is read.
fn told_of(
    alloc: Global,
    path: &str,
    text: &[u8],
    file: &SpecText,
    error: &BindError,
) -> Result<String, AllocError>
    requires { IsSpec text.now (spec_tree file.now) }
    ensures { IfOk result (λ told. AreTold path.now text.now (SpecFault.Binding error.now) (string_bytes told)) }
{
    let blocks = sent_blocks(alloc, file)?;
    let faults = faults_of(alloc, &blocks, error.offset)?;
    let sentence = sentence_of(alloc, &blocks, error)?;
    let mut told = explained(alloc, path, text, error.offset, &sentence)?;
    push_faults(alloc, path, text, &blocks, &faults, &mut told)?;
    Ok(told)
}

/// Puts faults behind what is told so far.
fn push_faults(
    alloc: Global,
    path: &str,
    text: &[u8],
    blocks: &[SentBlock],
    faults: &[BindError],
    told: &mut String,
) -> Result<(), AllocError>
    ensures { IfOk result (λ _. TellsFaults path.now text.now (string_bytes told.old) faults.now (string_bytes told.new)) }
{
    for fault in faults {
        push_also(alloc, path, text, blocks, fault, told)?;
    }
    Ok(())
}

/// Puts a fault behind what is told so far.
fn push_also(
    alloc: Global,
    path: &str,
    text: &[u8],
    blocks: &[SentBlock],
    fault: &BindError,
    told: &mut String,
) -> Result<(), AllocError>
    ensures { IfOk result (λ _. (sentence : List ℕ) × (string_bytes told.new ≡ string_bytes told.old ++ also_line path.now text.now (record { error = fault.now; sentence = sentence }))) }
{
    let sentence = sentence_of(alloc, blocks, fault)?;
    let explanation = explained(alloc, path, text, fault.offset, &sentence)?;
    let line = format!(in alloc; "\nalso {explanation}")?;
    told.push_str(&line)
}
