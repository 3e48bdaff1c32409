//! Files that are no spec from their first byte on, and of which it is known what they are.

/// What a file is that is no spec.
#[derive(Clone, Copy, PartialEq, Eq)]
pub(crate) enum Origin {
    /// A text behind a byte order mark.
    Marked,
    /// A book: an object of JSON, of which the first member is one of a book's.
    Book,
}

/// U+FEFF in UTF-8.
const BYTE_ORDER_MARK: &[u8] = b"\xef\xbb\xbf";

/// What a file is, by its front.
pub(crate) fn origin_of(text: &[u8]) -> Option<Origin> {
    if text.starts_with(BYTE_ORDER_MARK) {
        return Some(Origin::Marked);
    }
    if begins_book(text) {
        return Some(Origin::Book);
    }
    None
}

/// Whether a text begins as a book does, in any of its spellings without letters by their numbers.
fn begins_book(text: &[u8]) -> bool {
    match text.trim_ascii_start() {
        [b'{', members @ ..] => begins_member(members.trim_ascii_start()),
        _ => false,
    }
}

/// Whether the name of a book's member stands first.
fn begins_member(text: &[u8]) -> bool {
    text.starts_with(b"\"facts\"")
        || text.starts_with(b"\"format\"")
        || text.starts_with(b"\"outcomes\"")
        || text.starts_with(b"\"spec\"")
}
