//! Markers of permutation lines, which have no effect.

use std::alloc::{AllocError, Global};

/// What a byte of a spec file stands in.
#[derive(Clone, Copy)]
enum Within {
    /// Words and signs of the file itself.
    Tokens,
    /// A block in braces.
    Block,
    /// A name in quotes.
    Name,
    /// A comment.
    Comment,
}

/// Where the markers of items begin in the text of a spec file: parentheses stand nowhere else but in blocks, names and comments.
pub(crate) fn markers(alloc: Global, text: &str) -> Result<Vec<usize>, AllocError> {
    let mut all = Vec::new(alloc);
    let mut within = Within::Tokens;
    for (place, byte) in text.as_bytes().iter().enumerate() {
        if matches!(within, Within::Tokens) && *byte == b'(' {
            all.push(place)?;
        }
        within = behind(within, *byte);
    }
    Ok(all)
}

/// What the byte behind this one stands in. A doubled quote ends a name and begins another one, which comes to the same.
fn behind(within: Within, byte: u8) -> Within {
    match (within, byte) {
        (Within::Tokens, b'{') => Within::Block,
        (Within::Tokens, b'"') => Within::Name,
        (Within::Tokens, b'#') => Within::Comment,
        (Within::Block, b'}') | (Within::Name, b'"') | (Within::Comment, b'\n') => Within::Tokens,
        _ => within,
    }
}
