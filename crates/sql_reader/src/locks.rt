//! LOCK TABLE.

ghost use Rattle.std.specs.Prelude.{◌≡◌, ◌≤◌, length, IfOk, codes};
ghost use Rattle.sql_grammar.specs.Lexing.{view_token, views};
ghost use Rattle.sql_grammar.specs.Tokens.{Key};
ghost use Rattle.sql_grammar.specs.Reading.{strength, row_exclusive, share_mode, lock_mode, mode_part, table_word, lock, optional};
ghost use Rattle.sql_grammar.specs.Views.{Gives, view_lock};

use crate::steps::{at_key, at_word, first, maybe_nowait, name, skip_key, skip_word, taken};
use sql_grammar::{LockMode, Placed, Stop, Strength, TableLock, Token};
use std::alloc::Global;

fn strength(token: &Token) -> Option<Strength>
    ensures { result ≡ strength (view_token token.now) }
{
    if token.is_word("share") {
        Some(Strength::Share)
    } else if token.is_word("exclusive") {
        Some(Strength::Exclusive)
    } else {
        None
    }
}

fn row_exclusive<'a, 't>(tokens: &'t [Placed<'a>]) -> Result<&'t [Placed<'a>], Stop<'a>>
    ensures reads { Gives (λ rest. (tt, views rest.now)) result (row_exclusive (views tokens.now)) }
    ensures shorter { IfOk result (λ rest. length rest.now ≤ length tokens.now) }
{
    let rest = skip_word(tokens, "row")?;
    skip_word(rest, "exclusive")
}

fn lock_mode<'a, 't>(tokens: &'t [Placed<'a>]) -> Result<(LockMode, &'t [Placed<'a>]), Stop<'a>>
    ensures reads { Gives (λ x. (x.0, views x.1.now)) result (lock_mode (views tokens.now)) }
    ensures shorter { IfOk result (λ x. length x.1.now ≤ length tokens.now) }
{
    if at_word(tokens, "access") {
        let rest = skip_word(tokens, "access")?;
        let (strength, rest) = taken(strength(&first(rest).token), rest)?;
        Ok((LockMode::Access(strength), rest))
    } else if at_word(tokens, "row") {
        let rest = skip_word(tokens, "row")?;
        let (strength, rest) = taken(strength(&first(rest).token), rest)?;
        Ok((LockMode::RowLevel(strength), rest))
    } else if at_word(tokens, "share") {
        let rest = skip_word(tokens, "share")?;
        share_mode(rest)
    } else {
        let rest = skip_word(tokens, "exclusive")?;
        Ok((LockMode::Exclusively, rest))
    }
}

/// What may stand behind SHARE.
fn share_mode<'a, 't>(tokens: &'t [Placed<'a>]) -> Result<(LockMode, &'t [Placed<'a>]), Stop<'a>>
    ensures reads { Gives (λ x. (x.0, views x.1.now)) result (share_mode (views tokens.now)) }
    ensures shorter { IfOk result (λ x. length x.1.now ≤ length tokens.now) }
{
    if at_word(tokens, "row") {
        let rest = row_exclusive(tokens)?;
        Ok((
            LockMode::Shared {
                row_exclusive: true,
            },
            rest,
        ))
    } else {
        Ok((
            LockMode::Shared {
                row_exclusive: false,
            },
            tokens,
        ))
    }
}

fn mode_part<'a, 't>(tokens: &'t [Placed<'a>]) -> Result<(LockMode, &'t [Placed<'a>]), Stop<'a>>
    ensures reads { Gives (λ x. (x.0, views x.1.now)) result (mode_part (views tokens.now)) }
    ensures shorter { IfOk result (λ x. length x.1.now ≤ length tokens.now) }
{
    let rest = skip_key(tokens, "in")?;
    let (mode, rest) = lock_mode(rest)?;
    let rest = skip_word(rest, "mode")?;
    Ok((mode, rest))
}

fn maybe_mode<'a, 't>(
    tokens: &'t [Placed<'a>],
) -> Result<(Option<LockMode>, &'t [Placed<'a>]), Stop<'a>>
    ensures reads { Gives (λ x. (x.0, views x.1.now)) result (optional (Key (codes "in")) mode_part (views tokens.now)) }
    ensures shorter { IfOk result (λ x. length x.1.now ≤ length tokens.now) }
{
    if at_key(tokens, "in") {
        let (mode, rest) = mode_part(tokens)?;
        Ok((Some(mode), rest))
    } else {
        Ok((None, tokens))
    }
}

fn table_word<'a, 't>(tokens: &'t [Placed<'a>]) -> Result<(bool, &'t [Placed<'a>]), Stop<'a>>
    ensures reads { Gives (λ x. (x.0, views x.1.now)) result (table_word (views tokens.now)) }
    ensures shorter { IfOk result (λ x. length x.1.now ≤ length tokens.now) }
{
    if at_key(tokens, "table") {
        let rest = skip_key(tokens, "table")?;
        Ok((true, rest))
    } else {
        Ok((false, tokens))
    }
}

/// A LOCK TABLE, and the tokens behind it. It stops at a token that cannot stand there, or for want of memory.
pub(crate) fn lock<'a, 't>(
    alloc: Global,
    tokens: &'t [Placed<'a>],
) -> Result<(TableLock, &'t [Placed<'a>]), Stop<'a>>
    ensures reads { Gives (λ x. (view_lock x.0, views x.1.now)) result (lock (views tokens.now)) }
    ensures shorter { IfOk result (λ x. length x.1.now ≤ length tokens.now) }
{
    let rest = skip_word(tokens, "lock")?;
    let (table_word, rest) = table_word(rest)?;
    let (table, rest) = name(alloc, rest)?;
    let (mode, rest) = maybe_mode(rest)?;
    let (nowait, rest) = maybe_nowait(rest)?;
    Ok((
        TableLock {
            table_word,
            table,
            mode,
            nowait,
        },
        rest,
    ))
}
