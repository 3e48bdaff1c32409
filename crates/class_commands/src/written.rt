//! A page of classes, as it is written.

ghost use Rattle.std.specs.Prelude.{◌≡◌, IfOk, true};
ghost use Rattle.class_texts.specs.Records.{record_bytes};
ghost use Rattle.class_commands.specs.Written.{AreRanks, IsWritten, written_bytes};

use bound_specs::Spec;
use class_stretches::{RankRun, Stretches};
use class_texts::{Page, classes_text, record_text};
use class_values::{Sheet, classes_json};
use spec_commands::sessions_of_steps;
use spec_texts::statement_texts;
use sqlite_items::Items;
use std::alloc::{AllocError, Global};

/// What is written of classes.
#[derive(Drop)]
pub(crate) enum Written {
    Text(String),
    Bytes(Vec<u8>),
}

impl Written {
    pub(crate) fn bytes(&self) -> &[u8]
        ensures { result.now ≡ written_bytes self.now }
    {
        match self {
            Written::Text(text) => text.as_bytes(),
            Written::Bytes(bytes) => bytes.as_slice(),
        }
    }
}

/// The page, as it is written.
pub(crate) fn written_page(
    alloc: Global,
    spec: &Spec,
    page: &Page<'_>,
    json: bool,
) -> Result<Written, AllocError>
    ensures { IfOk result (λ w. IsWritten json spec.now.text spec.now page.now (written_bytes w)) }
{
    if json {
        return json_of(alloc, spec, page);
    }
    let text = classes_text(alloc, page)?;
    Ok(Written::Text(text))
}

/// The record of the results.
pub(crate) fn written_record(alloc: Global, page: &Page<'_>) -> Result<Written, AllocError>
    ensures { IfOk result (λ w. written_bytes w ≡ record_bytes page.now) }
{
    let text = record_text(alloc, page)?;
    Ok(Written::Text(text))
}

/// The page as JSON.
pub(crate) fn json_of(alloc: Global, spec: &Spec, page: &Page<'_>) -> Result<Written, AllocError>
    ensures { IfOk result (λ w. IsWritten true spec.now.text spec.now page.now (written_bytes w)) }
{
    let step_sessions = sessions_of_steps(alloc, spec)?;
    let statements = statement_texts(alloc, spec)?;
    let sheet = Sheet {
        page,
        step_sessions: step_sessions.as_slice(),
        statements: statements.as_slice(),
    };
    let bytes = classes_json(alloc, &sheet)?;
    Ok(Written::Bytes(bytes))
}

/// The ranks of each class, where they are told.
pub(crate) fn ranks_of(
    alloc: Global,
    are_told: bool,
    stretches: &Stretches,
) -> Result<Vec<Items<RankRun>>, AllocError>
    ensures { IfOk result (λ ranks. AreRanks are_told stretches.now ranks.items) }
{
    if are_told {
        return stretches.runs_by_class(alloc);
    }
    Ok(Vec::new(alloc))
}
