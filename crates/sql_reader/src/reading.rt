//! Reads the statements of a block.

ghost use Rattle.std.specs.Prelude.{◌≡◌, ◌++◌, ℕ, List, suc, length, is_some, option_map, false, IfOk, IfErr, MatchResult};
ghost use Rattle.sql_grammar.specs.declared.error.Failure.TheVariants.{Refused};
ghost use Rattle.sql_grammar.specs.declared.error.SqlErrorKind.TheVariants.{NoMemory};
ghost use Rattle.sql_grammar.specs.Grammar.{Fault, FirstFault};
ghost use Rattle.sql_grammar.specs.Lexing.{quoted, token_list, view_token, views};
ghost use Rattle.sql_grammar.specs.Reading.{first, other_form, form, begins_begin, begins_form, kind_of, refused, no_form, statement, maybe_statement};
ghost use Rattle.sql_grammar.specs.Text.{StatementAt, IsSpelled, Explains, AllHaveFewRows, at_offset, fault_at, next_statement, statements_from, pushed, seen, failure_of, Tells};
ghost use Rattle.sql_grammar.specs.Views.{Gives, option_by, view_form};

use crate::changes::{delete, update};
use crate::locks::lock;
use crate::queries::select;
use crate::rows::insert;
use crate::settings::set;
use crate::steps::{at_key, at_sign, at_word, behind, first, inside};
use crate::tables::create;
use crate::transactions::{begin, end_word, ends};
use byte_runs::tokens_of;
use sql_grammar::{
    Failure, Form, Limit, Placed, SqlError, SqlErrorKind, Statement, Stop, Token, Why, quoted_len,
};
use std::alloc::{AllocError, Global};

fn begins_begin(tokens: &[Placed]) -> bool
    ensures { result ≡ begins_begin (first (views tokens.now)).token }
{
    at_word(tokens, "begin") || at_word(tokens, "start")
}

/// BEGIN, COMMIT, LOCK, SET or another word for them.
#[tactic(auto, unfolding(sql_grammar::specs::Reading::other_form))]
fn other_form<'a, 't>(
    alloc: Global,
    tokens: &'t [Placed<'a>],
) -> Result<(Form, &'t [Placed<'a>]), Stop<'a>>
    ensures { Gives (λ x. (view_form x.0, views x.1.now)) result (other_form (views tokens.now)) }
{
    if begins_begin(tokens) {
        let (begin, rest) = begin(tokens)?;
        Ok((Form::Begin(begin), rest))
    } else if end_word(&first(tokens).token).is_some() {
        let (end, rest) = ends(tokens)?;
        Ok((Form::End(end), rest))
    } else if at_word(tokens, "lock") {
        let (lock, rest) = lock(alloc, tokens)?;
        Ok((Form::Lock(lock), rest))
    } else {
        let (setting, rest) = set(alloc, tokens)?;
        Ok((Form::Set(setting), rest))
    }
}

/// A statement, by its first word.
#[tactic(auto, unfolding(sql_grammar::specs::Reading::form))]
fn form<'a, 't>(
    alloc: Global,
    tokens: &'t [Placed<'a>],
) -> Result<(Form, &'t [Placed<'a>]), Stop<'a>>
    ensures { Gives (λ x. (view_form x.0, views x.1.now)) result (form (views tokens.now)) }
{
    if at_word(tokens, "create") {
        let (create, rest) = create(alloc, tokens)?;
        Ok((Form::CreateTable(create), rest))
    } else if at_word(tokens, "insert") {
        let (insert, rest) = insert(alloc, tokens)?;
        Ok((Form::Insert(insert), rest))
    } else if at_key(tokens, "select") {
        let (select, rest) = select(alloc, tokens)?;
        Ok((Form::Select(select), rest))
    } else if at_word(tokens, "update") {
        let (update, rest) = update(alloc, tokens)?;
        Ok((Form::Update(update), rest))
    } else if at_word(tokens, "delete") {
        let (delete, rest) = delete(alloc, tokens)?;
        Ok((Form::Delete(delete), rest))
    } else {
        other_form(alloc, tokens)
    }
}

/// Whether a statement begins here.
fn begins_form(tokens: &[Placed]) -> bool
    ensures { result ≡ begins_form (first (views tokens.now)).token }
{
    at_word(tokens, "create")
        || at_word(tokens, "insert")
        || at_key(tokens, "select")
        || at_word(tokens, "update")
        || at_word(tokens, "delete")
        || begins_begin(tokens)
        || end_word(&first(tokens).token).is_some()
        || at_word(tokens, "lock")
        || at_key(tokens, "set")
}

/// Whether a text is closed, by what follows its opening quote.
fn is_closed(after: &str) -> bool
    ensures { result ≡ is_some (quoted false after.now) }
{
    quoted_len(after.as_bytes()).is_some()
}

/// What is wrong with a token that cannot stand where it stands.
#[tactic(auto, using(crate::proofs::ReadingLemmas::refused_text))]
fn refused(token: &Token) -> SqlErrorKind
    ensures { result ≡ refused (view_token token.now) }
{
    match token {
        Token::NoToken => SqlErrorKind::BadToken,
        Token::NotClosed => SqlErrorKind::Unclosed,
        Token::Text(after) if !is_closed(after) => SqlErrorKind::Unclosed,
        _ => SqlErrorKind::Syntax,
    }
}

/// What is wrong with a first token that begins no statement.
fn no_form(token: &Token) -> SqlErrorKind
    ensures { result ≡ no_form (view_token token.now) }
{
    match token {
        Token::Key(_) | Token::Word(_) => SqlErrorKind::Unsupported,
        _ => refused(token),
    }
}

fn kind_of(why: Why, token: &Token) -> SqlErrorKind
    ensures { result ≡ kind_of why (view_token token.now) }
{
    match why {
        Why::CannotStand => refused(token),
        Why::Passes(Limit::NumberTooLarge) => SqlErrorKind::NumberTooLarge,
        Why::Passes(Limit::TooLarge) => SqlErrorKind::TooLarge,
    }
}

/// A fault of this kind at this byte.
fn fault(kind: SqlErrorKind, offset: usize) -> Failure
    ensures { result ≡ Refused (record { kind = kind; offset = offset }) }
{
    Failure::Refused(SqlError { kind, offset })
}

/// What a stop comes to.
fn failure_of(stop: Stop) -> Failure
    ensures { result ≡ failure_of stop.entry }
{
    match stop {
        Stop::Memory => Failure::Memory,
        Stop::At(why, here) => fault(kind_of(why, &here.token), here.at),
    }
}

fn statement<'a, 't>(
    alloc: Global,
    tokens: &'t [Placed<'a>],
) -> Result<(Form, &'t [Placed<'a>]), Failure>
    ensures { Tells (λ x. (view_form x.0, views x.1.now)) result (statement (views tokens.now)) }
{
    if !begins_form(tokens) {
        let here = first(tokens);
        return Err(fault(no_form(&here.token), here.at));
    }
    match form(alloc, tokens) {
        Ok(read) => Ok(read),
        Err(stop) => Err(failure_of(stop)),
    }
}

/// A statement, or none before a semicolon or the end.
fn maybe_statement<'a, 't>(
    alloc: Global,
    tokens: &'t [Placed<'a>],
) -> Result<(Option<Form>, &'t [Placed<'a>]), Failure>
    ensures { Tells (λ x. (option_by view_form x.0, views x.1.now)) result (maybe_statement (views tokens.now)) }
{
    if inside(&first(tokens).token) {
        let (form, rest) = statement(alloc, tokens)?;
        Ok((Some(form), rest))
    } else {
        Ok((None, tokens))
    }
}

/// Adds a statement, if there is one.
fn push(all: &mut Vec<Statement>, at: usize, form: Option<Form>) -> Result<(), AllocError>
    ensures { IfOk result (λ _. seen all.new.items ≡ seen all.old.items ++ at_offset at (option_by view_form form)) }
{
    if let Some(form) = form {
        all.push(Statement { at, form })?;
    }
    Ok(())
}

/// Adds the first statement, if it is no empty one, and gives the tokens behind its semicolon, if there is one.
#[tactic(auto, unfolding(sql_grammar::specs::Text::next_statement))]
fn push_next<'a, 't>(
    alloc: Global,
    tokens: &'t [Placed<'a>],
    all: &mut Vec<Statement>,
) -> Result<Option<&'t [Placed<'a>]>, Failure>
    ensures { Tells (λ more. (seen all.new.items, option_map (λ rest. views rest.now) more)) result (pushed (seen all.old.items) (next_statement (views tokens.now))) }
{
    let at = first(tokens).at;
    let (form, rest) = maybe_statement(alloc, tokens)?;
    push(all, at, form)?;
    let here = first(rest);
    if here.token.is_sign(";") {
        Ok(Some(behind(rest)))
    } else if here.token.is_end() {
        Ok(None)
    } else {
        Err(fault(refused(&here.token), here.at))
    }
}

/// The statements of a block, from its tokens.
fn statements_of(alloc: Global, tokens: &[Placed]) -> Result<Vec<Statement>, Failure>
    ensures { Tells (λ all. seen all.items) result (statements_from (suc (length (views tokens.now))) (views tokens.now)) }
{
    let mut all = Vec::new(alloc);
    let Some(mut rest) = push_next(alloc, tokens, &mut all)? else {
        return Ok(all);
    };
    // Each statement but the last takes a semicolon.
    let mut turns = tokens.len();
    'block: while turns > 0 {
        turns -= 1;
        let Some(more) = push_next(alloc, rest, &mut all)? else {
            return Ok(all);
        };
        rest = more;
    }
    Err(fault(SqlErrorKind::Syntax, first(rest).at))
}

const NO_MEMORY: SqlError = SqlError {
    kind: SqlErrorKind::NoMemory,
    offset: 0,
};

/// Reads the statements of a block. The error has the kind and the place of the first fault, or `NoMemory` and 0.
pub fn read_sql(alloc: Global, text: &str) -> Result<Vec<Statement>, SqlError>
    // What is read is what the text spells.
    ensures sound { IfOk result (λ all. IsSpelled text.now (seen all.items)) }
    // So an INSERT has at most so many rows.
    ensures few_rows { IfOk result (λ all. AllHaveFewRows (seen all.items)) }
    // What a text spells is read, unless memory runs out.
    ensures complete { (all : List StatementAt) → IsSpelled text.now all →
        MatchResult result (λ read. seen read.items ≡ all) (λ e. e.kind ≡ NoMemory) }
    // A text is refused with its first fault, unless memory ran out.
    ensures refused { IfErr result (Explains text.now) }
    // A text spells one list of statements at most.
    ensures one { (a b : List StatementAt) → IsSpelled text.now a → IsSpelled text.now b → a ≡ b }
    // It has one first fault at most.
    ensures one_fault { (a b : Fault) → FirstFault (token_list text.now) a → FirstFault (token_list text.now) b → a ≡ b }
{
    let Ok(tokens) = tokens_of::<Token>(alloc, text) else {
        return Err(NO_MEMORY);
    };
    match statements_of(alloc, &tokens) {
        Ok(all) => Ok(all),
        Err(Failure::Memory) => Err(NO_MEMORY),
        Err(Failure::Refused(e)) => Err(e),
    }
}
