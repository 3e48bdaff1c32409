//! What is wrong with a spec file, a sentence for each kind of refusal.

use crate::origins::{Origin, origin_of};
use binding_model::BindErrorKind;
use spec_reader::SpecErrorKind;
use sql_grammar::SqlErrorKind;

/// What is wrong where a file is no spec, and what is expected there. A text behind a byte order mark and a book are told as such.
pub fn file_sentence(kind: SpecErrorKind, text: &[u8]) -> &'static str {
    match (kind, origin_of(text)) {
        (SpecErrorKind::Misplaced, Some(Origin::Marked)) => {
            "The file begins with a byte order mark, which editors do not show: a spec file has none."
        }
        (
            SpecErrorKind::Misplaced | SpecErrorKind::Unclosed | SpecErrorKind::TooLarge,
            Some(Origin::Book),
        ) => {
            "The file is a book and no spec file: report, audit, judge, join and classes --book read books."
        }
        (kind, _) => text_sentence(kind),
    }
}

/// What is wrong where a text is no spec file, and what is expected there.
pub fn text_sentence(kind: SpecErrorKind) -> &'static str {
    match kind {
        SpecErrorKind::NotUtf8 => "From here on the file is no text: a spec file is UTF-8.",
        SpecErrorKind::BadToken => {
            "No token begins here: a file has words, names, numbers, blocks in braces, and the signs ( ) , and *; a name in quotes is not empty."
        }
        SpecErrorKind::Unclosed => {
            "What begins here has no end: a block ends with }, and a name in quotes with the quote on the same line."
        }
        SpecErrorKind::Misplaced => {
            "This cannot stand here: a file has setups, a teardown, sessions, and then permutation lines; a session has its name, a setup, a teardown, steps with a name and a block each, and a teardown."
        }
        SpecErrorKind::NoStep => {
            "A session or a step is expected here: a file has one session at least, and each session one step."
        }
        SpecErrorKind::DuplicateStep => {
            "An earlier step has this name: each step of a file has a name of its own, whichever its session is."
        }
        SpecErrorKind::DuplicateSession => {
            "An earlier session has this name: each session has a name of its own."
        }
        SpecErrorKind::UnknownStep => {
            "No step has this name: permutation lines and their markers name steps of the file."
        }
        SpecErrorKind::TooLarge => {
            "The file is too large: it has 65,536 bytes and 4,096 permutation lines at most, and a line 28 steps."
        }
        SpecErrorKind::NoMemory => "Memory ran out.",
    }
}

/// What is wrong where a spec file does not bind, and what is expected there.
pub fn binding_sentence(kind: BindErrorKind) -> &'static str {
    match kind {
        BindErrorKind::Sql(kind) => sql_sentence(kind),
        BindErrorKind::UnknownTable => {
            "The statement that begins here names a table that no statement before it declares: CREATE TABLE stands in a setup of the file."
        }
        BindErrorKind::UnknownColumn => {
            "The statement that begins here names a column that its table does not have."
        }
        BindErrorKind::TypeMismatch => {
            "The statement that begins here takes a value of one type for another: arithmetic and sum take numbers, both sides of a comparison have one type, and a column takes values of its own."
        }
        BindErrorKind::KeyChanged => {
            "The statement that begins here sets the primary key: a row keeps its key, so delete it and insert another."
        }
        BindErrorKind::DuplicateTable => {
            "The statement that begins here declares a table that an earlier one declares."
        }
        BindErrorKind::WrongCount => {
            "The statement that begins here has too many or too few: a new row gives each column one value, a column is set or declared once, and a table has one primary key at most."
        }
        BindErrorKind::Shape => {
            "The file has too many sessions, steps or orders: 8 sessions at most, and 28 steps with fewer than 9,223,372,036,854,775,808 orders, or 255 steps where it has permutation lines."
        }
        BindErrorKind::NoMemory => "Memory ran out.",
    }
}

/// What is wrong where a block is no SQL of the subset, and what is expected there.
fn sql_sentence(kind: SqlErrorKind) -> &'static str {
    match kind {
        SqlErrorKind::BadToken => {
            "No token of SQL begins here: a block has words, whole numbers, texts in single quotes, and the signs ( ) , ; * + - = <> != < <= > and >=."
        }
        SqlErrorKind::Unclosed => {
            "The text that begins here has no end: it ends with a single quote, and a quote in it is doubled."
        }
        SqlErrorKind::Syntax => {
            "This cannot stand here in a statement, or the statement ends too early."
        }
        SqlErrorKind::Unsupported => {
            "No statement begins with this word: there are CREATE TABLE, INSERT, SELECT, UPDATE, DELETE, BEGIN, START, COMMIT, END, ROLLBACK, ABORT, LOCK and SET."
        }
        SqlErrorKind::NumberTooLarge => {
            "The number is too large: whole numbers have 64 bits with a sign."
        }
        SqlErrorKind::TooLarge => {
            "The statement is too large: an INSERT has 100 rows at most, and a condition 32 levels of parentheses and NOT."
        }
        SqlErrorKind::NotHere => {
            "CREATE TABLE stands in a setup of the file alone, and not in a session."
        }
        SqlErrorKind::NoMemory => "Memory ran out.",
    }
}
