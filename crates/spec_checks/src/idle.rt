//! What is read of a spec file and has no effect.

ghost use Rattle.std.specs.Prelude.{◌≡◌, ◌++◌, [], ℕ, List, codes, map, IfOk, OnOk, string_bytes};
ghost use Rattle.spec_reader.specs.Whole.{spec_tree};
ghost use Rattle.file_blocks.specs.Blocks.{sent_tree};
ghost use Rattle.spec_checks.specs.Idle.{idle_line, idle_lines, level_line, teardowns};
ghost use Rattle.spec_texts.specs.Statements.{statements_with};

use crate::markers::markers;
use crate::teardowns::teardowns;
use crate::telling::push_line;
use bound_statements::Level;
use file_blocks::{SentBlock, sent_blocks};
use spec_reader::SpecText;
use spec_texts::{SqlPart, statements_with};
use std::alloc::{AllocError, Global};

/// What is told of the parts of a file that have no effect where this level is asked for, a line for each kind that it has.
pub(crate) fn idle_lines(
    alloc: Global,
    file: &SpecText,
    asked: Option<Level>,
) -> Result<String, AllocError>
    ensures { IfOk result (λ told. (markers : List ℕ) × (string_bytes told ≡ idle_lines asked (string_bytes file.now.text) (spec_tree file.now) markers)) }
{
    let blocks = sent_blocks(alloc, file)?;
    let text = file.text.as_bytes();
    let mut told = String::new(alloc);
    push_levels(alloc, text, asked, &blocks, &mut told)?;
    push_statements(alloc, text, &blocks, &mut told)?;
    push_others(alloc, text, file, &mut told)?;
    Ok(told)
}

/// What is told of levels.
fn push_levels(
    alloc: Global,
    text: &[u8],
    asked: Option<Level>,
    blocks: &[SentBlock],
    told: &mut String,
) -> Result<(), AllocError>
    ensures { OnOk result (string_bytes told.new ≡ string_bytes told.old ++ level_line asked text.now (map sent_tree blocks.now)) }
{
    match asked {
        None => push_kind(alloc, text, "isolation level", SqlPart::Level, blocks, told),
        Some(_) => Ok(()),
    }
}

/// What is told of other statements, each kind in its turn.
fn push_statements(
    alloc: Global,
    text: &[u8],
    blocks: &[SentBlock],
    told: &mut String,
) -> Result<(), AllocError>
    ensures { OnOk result (string_bytes told.new ≡ string_bytes told.old ++ (idle_line text.now (codes "SET") (statements_with SqlPart.Setting (map sent_tree blocks.now)) ++ idle_line text.now (codes "NOT NULL") (statements_with SqlPart.NotNull (map sent_tree blocks.now)))) }
{
    push_kind(alloc, text, "SET", SqlPart::Setting, blocks, told)?;
    push_kind(alloc, text, "NOT NULL", SqlPart::NotNull, blocks, told)
}

fn push_kind(
    alloc: Global,
    text: &[u8],
    words: &str,
    kind: SqlPart,
    blocks: &[SentBlock],
    told: &mut String,
) -> Result<(), AllocError>
    ensures { OnOk result (string_bytes told.new ≡ string_bytes told.old ++ idle_line text.now words.now (statements_with kind (map sent_tree blocks.now))) }
{
    let places = statements_with(alloc, kind, blocks)?;
    push_line(alloc, text, words, &places, told)
}

fn push_others(
    alloc: Global,
    text: &[u8],
    file: &SpecText,
    told: &mut String,
) -> Result<(), AllocError>
    ensures { IfOk result (λ _. (markers : List ℕ) × (string_bytes told.new ≡ string_bytes told.old ++ (idle_line text.now (codes "teardown") (teardowns (spec_tree file.now)) ++ idle_line text.now (codes "marker") markers))) }
{
    let teardowns = teardowns(alloc, file)?;
    push_line(alloc, text, "teardown", &teardowns, told)?;
    let markers = markers(alloc, &file.text)?;
    push_line(alloc, text, "marker", &markers, told)
}
