//! What is wrong at a fault of a block.

use binding_model::{BindError, BindErrorKind};
use fault_texts::binding_sentence;
use file_blocks::SentBlock;
use spec_reader::Block;
use sql_grammar::SqlErrorKind;
use sql_phrases::known_sentence;
use std::alloc::{AllocError, Global};

/// What is wrong at a fault of a file with these blocks, and what is expected there. SQL that is known and not in the subset is told by its name.
pub(crate) fn sentence_of(
    alloc: Global,
    blocks: &[SentBlock],
    error: &BindError,
) -> Result<String, AllocError> {
    if is_unreadable(error.kind)
        && let Some(sent) = blocks.iter().find(|sent| holds(sent.block, error.offset))
    {
        let place = error.offset.saturating_sub(sent.block.at);
        if let Some(sentence) = known_sentence(alloc, &sent.block.text, place)? {
            return Ok(sentence);
        }
    }
    String::from_str(alloc, binding_sentence(error.kind))
}

/// Whether the fault is of a token that cannot be cut or cannot stand where it does.
fn is_unreadable(kind: BindErrorKind) -> bool {
    matches!(
        kind,
        BindErrorKind::Sql(
            SqlErrorKind::BadToken | SqlErrorKind::Syntax | SqlErrorKind::Unsupported
        )
    )
}

/// Whether a place of the file is one of the block's, or its end.
fn holds(block: &Block, offset: usize) -> bool {
    block.at <= offset && offset - block.at <= block.text.len()
}
