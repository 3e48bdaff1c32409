//! What stands at a place of a block where it cannot stand.

use crate::tables::{CREATED, PARTS, STATEMENTS, TYPES};
use byte_runs::tokens_of;
use sql_grammar::{Placed, Token};
use std::alloc::{AllocError, Global};

/// A part of SQL that is not in the subset, with its name.
#[derive(Clone, Copy)]
enum Known {
    /// The first words of a statement.
    Statement(&'static str),
    /// What a statement creates.
    Created(&'static str),
    /// The type of a column.
    Type(&'static str),
    /// Another part of a statement.
    Part(&'static str),
}

/// What is said of what stands at this place of a block and cannot stand there, where it is known SQL that is not in the subset.
pub fn known_sentence(
    alloc: Global,
    block: &str,
    place: usize,
) -> Result<Option<String>, AllocError> {
    let tokens = tokens_of::<Token>(alloc, block)?;
    match known_at(block, tokens.as_slice(), place) {
        Some(known) => Ok(Some(sentence(alloc, known)?)),
        None => Ok(None),
    }
}

fn sentence(alloc: Global, known: Known) -> Result<String, AllocError> {
    match known {
        Known::Statement(name) => {
            format!(in alloc;
                "{name} is not in the subset of SQL: its statements are CREATE TABLE, INSERT, SELECT, UPDATE, DELETE, BEGIN, START, COMMIT, END, ROLLBACK, ABORT, LOCK and SET."
            )
        }
        Known::Created(name) => {
            format!(in alloc; "CREATE {name} is not in the subset of SQL: it creates tables alone.")
        }
        Known::Type(name) => {
            format!(in alloc;
                "{name} is not in the subset of SQL: its types are INT, INTEGER, INT4, BIGINT, INT8 and TEXT."
            )
        }
        Known::Part(name) => format!(in alloc; "{name} is not in the subset of SQL."),
    }
}

/// What stands at a place of a block that has these tokens.
fn known_at(block: &str, tokens: &[Placed], place: usize) -> Option<Known> {
    let number = tokens.iter().position(|token| token.at == place)?;
    let (before, from) = tokens.split_at_checked(number)?;
    match last_statement(before) {
        [] => phrase_at(from, STATEMENTS).map(Known::Statement),
        [create] if is_word(&create.token, "create") => {
            phrase_at(from, CREATED).map(Known::Created)
        }
        statement => inside(statement, from).or_else(|| sign_at(block, statement, place)),
    }
}

/// The tokens behind the last semicolon.
fn last_statement<'t, 'a>(tokens: &'t [Placed<'a>]) -> &'t [Placed<'a>] {
    let (_, statement) = tokens.split_at(statement_begin(tokens).min(tokens.len()));
    statement
}

/// How many tokens stand up to the last semicolon, and with it.
fn statement_begin(tokens: &[Placed]) -> usize {
    let mut begin = 0;
    for (number, token) in tokens.iter().enumerate() {
        if token.token.is_sign(";") {
            begin = number + 1;
        }
    }
    begin
}

/// What stands behind these tokens of a statement.
fn inside(statement: &[Placed], from: &[Placed]) -> Option<Known> {
    if begins(statement, "create")
        && let Some(name) = phrase_at(from, TYPES)
    {
        return Some(Known::Type(name));
    }
    if begins_query(from) {
        return Some(Known::Part("A SELECT in another statement"));
    }
    phrase_at(from, PARTS)
        .or_else(|| behind_word(statement, from))
        .map(Known::Part)
}

/// Whether a SELECT in parentheses stands here.
fn begins_query(from: &[Placed]) -> bool {
    match from {
        [open, select, ..] => open.token.is_sign("(") && is_word(&select.token, "select"),
        _ => false,
    }
}

/// What stands behind a word that these tokens end with.
fn behind_word(statement: &[Placed], from: &[Placed]) -> Option<&'static str> {
    let here = from.first()?;
    match statement {
        [.., key, open, name]
            if is_name(&name.token)
                && open.token.is_sign("(")
                && is_word(&key.token, "key")
                && here.token.is_sign(",") => { Some("A key of several columns") }
        [select] if is_word(&select.token, "select") && is_value(&here.token) => {
            Some("A SELECT of values")
        }
        [.., distinct] if is_word(&distinct.token, "distinct") => Some("DISTINCT"),
        [.., name] if is_name(&name.token) && here.token.is_sign("(") => Some("A function"),
        [.., from, name] if is_name(&name.token) && names_table(&from.token) => {
            table_again(&here.token)
        }
        _ => None,
    }
}

/// What stands behind the name of a table.
fn table_again(token: &Token) -> Option<&'static str> {
    if token.is_sign(",") {
        return Some("A list of tables");
    }
    if is_name(token) {
        return Some("Another name for a table");
    }
    None
}

/// Whether the name of a table stands behind this word.
fn names_table(token: &Token) -> bool {
    is_word(token, "from") || is_word(token, "into") || is_word(token, "update")
}

/// Which sign stands at a place that is none of the subset.
fn sign_at(block: &str, statement: &[Placed], place: usize) -> Option<Known> {
    let signs = block.as_bytes().get(place..)?;
    sign_named(signs, statement).map(Known::Part)
}

/// The name of the sign that stands first, behind these tokens.
fn sign_named(signs: &[u8], statement: &[Placed]) -> Option<&'static str> {
    match signs {
        [b':', b':', ..] => Some("A cast"),
        [b'|', b'|', ..] => Some("||"),
        [b'/', b'*', ..] => Some("A comment in /* and */"),
        [b'/', ..] => Some("A division"),
        [b'%', ..] => Some("A remainder"),
        [b'"', ..] => Some("A name in double quotes"),
        [b'$', ..] => Some("A text or a parameter with $"),
        [b'[', ..] => Some("An array"),
        [b'.', ..] => Some(point_behind(statement)),
        _ => None,
    }
}

/// What a point behind these tokens belongs to.
fn point_behind(statement: &[Placed]) -> &'static str {
    match statement {
        [.., last] if is_number(&last.token) => "A number with a point",
        _ => "A name of two parts",
    }
}

/// The name of the first phrase that stands here.
fn phrase_at(from: &[Placed], phrases: &'static str) -> Option<&'static str> {
    for phrase in phrases.lines() {
        let (words, name) = phrase.split_once('=').unwrap_or((phrase, phrase));
        if begins(from, words) {
            return Some(name);
        }
    }
    None
}

/// Whether these words stand first, in any case.
fn begins(tokens: &[Placed], words: &str) -> bool {
    let mut rest = tokens;
    for word in words.split_whitespace() {
        match rest {
            [first, more @ ..] if is_word(&first.token, word) => rest = more,
            _ => return false,
        }
    }
    true
}

fn is_word(token: &Token, word: &str) -> bool {
    match token {
        Token::Key(text) => text.eq_ignore_ascii_case(word),
        Token::Word(text) => text.eq_ignore_ascii_case(word),
        _ => false,
    }
}

fn is_name(token: &Token) -> bool {
    matches!(token, Token::Word(_))
}

fn is_value(token: &Token) -> bool {
    matches!(token, Token::Number(_) | Token::Text(_))
}

fn is_number(token: &Token) -> bool {
    matches!(token, Token::Number(_))
}
