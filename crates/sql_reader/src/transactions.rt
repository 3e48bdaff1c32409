//! BEGIN, COMMIT, ROLLBACK and their other words.

ghost use Rattle.std.specs.Prelude.{◌≡◌, ◌≤◌, length, IfOk, codes};
ghost use Rattle.sql_grammar.specs.Lexing.{view_token, views};
ghost use Rattle.sql_grammar.specs.Tokens.{Word};
ghost use Rattle.sql_grammar.specs.Reading.{noise, maybe_noise, read_word, level, level_part, start, begin, end_word, ends, optional};
ghost use Rattle.sql_grammar.specs.Views.{Gives, view_begin, view_end};

use crate::steps::{at_word, behind, first, skip_word, taken};
use sql_grammar::{Begin, End, EndWord, Level, Noise, Placed, ReadWord, Start, Stop, Token};

fn noise(token: &Token) -> Option<Noise>
    ensures { result ≡ noise (view_token token.now) }
{
    if token.is_word("work") {
        Some(Noise::Work)
    } else if token.is_word("transaction") {
        Some(Noise::Transaction)
    } else {
        None
    }
}

fn maybe_noise<'a, 't>(
    tokens: &'t [Placed<'a>],
) -> Result<(Option<Noise>, &'t [Placed<'a>]), Stop<'a>>
    ensures reads { Gives (λ x. (x.0, views x.1.now)) result (maybe_noise (views tokens.now)) }
    ensures shorter { IfOk result (λ x. length x.1.now ≤ length tokens.now) }
{
    match noise(&first(tokens).token) {
        Some(noise) => Ok((Some(noise), behind(tokens))),
        None => Ok((None, tokens)),
    }
}

fn read_word(token: &Token) -> Option<ReadWord>
    ensures { result ≡ read_word (view_token token.now) }
{
    if token.is_word("committed") {
        Some(ReadWord::Committed)
    } else if token.is_word("uncommitted") {
        Some(ReadWord::Uncommitted)
    } else {
        None
    }
}

fn level<'a, 't>(tokens: &'t [Placed<'a>]) -> Result<(Level, &'t [Placed<'a>]), Stop<'a>>
    ensures reads { Gives (λ x. (x.0, views x.1.now)) result (level (views tokens.now)) }
    ensures shorter { IfOk result (λ x. length x.1.now ≤ length tokens.now) }
{
    if at_word(tokens, "serializable") {
        let rest = skip_word(tokens, "serializable")?;
        Ok((Level::Serializable, rest))
    } else if at_word(tokens, "repeatable") {
        let rest = skip_word(tokens, "repeatable")?;
        let rest = skip_word(rest, "read")?;
        Ok((Level::RepeatableRead, rest))
    } else {
        let rest = skip_word(tokens, "read")?;
        let (word, rest) = taken(read_word(&first(rest).token), rest)?;
        Ok((Level::Read(word), rest))
    }
}

fn level_part<'a, 't>(tokens: &'t [Placed<'a>]) -> Result<(Level, &'t [Placed<'a>]), Stop<'a>>
    ensures reads { Gives (λ x. (x.0, views x.1.now)) result (level_part (views tokens.now)) }
    ensures shorter { IfOk result (λ x. length x.1.now ≤ length tokens.now) }
{
    let rest = skip_word(tokens, "isolation")?;
    let rest = skip_word(rest, "level")?;
    level(rest)
}

fn maybe_level<'a, 't>(
    tokens: &'t [Placed<'a>],
) -> Result<(Option<Level>, &'t [Placed<'a>]), Stop<'a>>
    ensures reads { Gives (λ x. (x.0, views x.1.now)) result (optional (Word (codes "isolation")) level_part (views tokens.now)) }
    ensures shorter { IfOk result (λ x. length x.1.now ≤ length tokens.now) }
{
    if at_word(tokens, "isolation") {
        let (level, rest) = level_part(tokens)?;
        Ok((Some(level), rest))
    } else {
        Ok((None, tokens))
    }
}

fn start<'a, 't>(tokens: &'t [Placed<'a>]) -> Result<(Start, &'t [Placed<'a>]), Stop<'a>>
    ensures reads { Gives (λ x. (x.0, views x.1.now)) result (start (views tokens.now)) }
    ensures shorter { IfOk result (λ x. length x.1.now ≤ length tokens.now) }
{
    if at_word(tokens, "begin") {
        let rest = skip_word(tokens, "begin")?;
        let (noise, rest) = maybe_noise(rest)?;
        Ok((Start::BeginWord(noise), rest))
    } else {
        let rest = skip_word(tokens, "start")?;
        let rest = skip_word(rest, "transaction")?;
        Ok((Start::StartWords, rest))
    }
}

/// A BEGIN or START TRANSACTION, and the tokens behind it. It stops at a token that cannot stand there.
pub(crate) fn begin<'a, 't>(tokens: &'t [Placed<'a>]) -> Result<(Begin, &'t [Placed<'a>]), Stop<'a>>
    ensures reads { Gives (λ x. (view_begin x.0, views x.1.now)) result (begin (views tokens.now)) }
    ensures shorter { IfOk result (λ x. length x.1.now ≤ length tokens.now) }
{
    let (start, rest) = start(tokens)?;
    let (level, rest) = maybe_level(rest)?;
    Ok((Begin { start, level }, rest))
}

/// What a token says at the front of a statement that ends a transaction, if it can stand there.
pub(crate) fn end_word(token: &Token) -> Option<EndWord>
    ensures { result ≡ end_word (view_token token.now) }
{
    if token.is_word("commit") {
        Some(EndWord::Commit)
    } else if token.is_word("end") {
        Some(EndWord::End)
    } else if token.is_word("rollback") {
        Some(EndWord::Rollback)
    } else if token.is_word("abort") {
        Some(EndWord::Abort)
    } else {
        None
    }
}

/// A COMMIT or ROLLBACK, or another word for them, and the tokens behind it. It stops at a token that cannot stand there.
pub(crate) fn ends<'a, 't>(tokens: &'t [Placed<'a>]) -> Result<(End, &'t [Placed<'a>]), Stop<'a>>
    ensures reads { Gives (λ x. (view_end x.0, views x.1.now)) result (ends (views tokens.now)) }
    ensures shorter { IfOk result (λ x. length x.1.now ≤ length tokens.now) }
{
    let (word, rest) = taken(end_word(&first(tokens).token), tokens)?;
    let (noise, rest) = maybe_noise(rest)?;
    Ok((End { word, noise }, rest))
}
