//! CREATE TABLE.

ghost use Rattle.std.specs.Prelude.{◌≡◌, ◌≤◌, ◌<◌, suc, length, option_map, IfOk, IfSome};
ghost use Rattle.sql_grammar.specs.Lexing.{view_token, views};
ghost use Rattle.sql_grammar.specs.declared.statement.TablePart.{TablePart};
ghost use Rattle.sql_grammar.specs.Reading.{begins_property, next_property, property, many, type_word, column_part, key_part, table_part, create};
ghost use Rattle.sql_grammar.specs.Views.{Gives, view_create};

use crate::lists::{Item, chain};
use crate::steps::{at_key, first, name, skip_key, skip_sign, skip_word, taken};
use sql_grammar::{CreateTable, Placed, Property, Stop, TablePart, Token, TypeWord};
use sqlite_items::Items;
use std::alloc::Global;

/// What stands behind the type of a column, if it goes on.
fn next_property<'a, 't>(
    tokens: &'t [Placed<'a>],
) -> Result<Option<(Property, &'t [Placed<'a>])>, Stop<'a>>
    ensures reads { Gives (λ o. option_map (λ x. (x.0, views x.1.now)) o) result (next_property (views tokens.now)) }
    ensures shorter { IfOk result (λ o. IfSome o (λ x. length x.1.now < length tokens.now)) }
{
    match tokens {
        [token, rest @ ..] if token.token.is_key("primary") => {
            let rest = skip_word(rest, "key")?;
            Ok(Some((Property::PrimaryKey, rest)))
        }
        [token, rest @ ..] if token.token.is_key("not") => {
            let rest = skip_word(rest, "null")?;
            Ok(Some((Property::NotNull, rest)))
        }
        _ => Ok(None),
    }
}

/// What stands behind the type of a column.
fn properties<'a, 't>(
    alloc: Global,
    tokens: &'t [Placed<'a>],
) -> Result<(Items<Property>, &'t [Placed<'a>]), Stop<'a>>
    ensures reads { Gives (λ x. (x.0, views x.1.now)) result (many begins_property property (suc (length (views tokens.now))) (views tokens.now)) }
    ensures shorter { IfOk result (λ x. length x.1.now ≤ length tokens.now) }
{
    let mut properties = Vec::new(alloc);
    let Some((first, mut rest)) = next_property(tokens)? else {
        return Ok((Items::from_vec(properties), tokens));
    };
    properties.push(first)?;
    'all: while let Some((next, behind)) = next_property(rest)? {
        properties.push(next)?;
        rest = behind;
    }
    Ok((Items::from_vec(properties), rest))
}

fn type_word(token: &Token) -> Option<TypeWord>
    ensures { result ≡ type_word (view_token token.now) }
{
    if token.is_word("int") {
        Some(TypeWord::Int)
    } else if token.is_word("integer") {
        Some(TypeWord::Integer)
    } else if token.is_word("int4") {
        Some(TypeWord::Int4)
    } else if token.is_word("bigint") {
        Some(TypeWord::BigInt)
    } else if token.is_word("int8") {
        Some(TypeWord::Int8)
    } else if token.is_word("text") {
        Some(TypeWord::Text)
    } else {
        None
    }
}

fn column_part<'a, 't>(
    alloc: Global,
    tokens: &'t [Placed<'a>],
) -> Result<(TablePart, &'t [Placed<'a>]), Stop<'a>>
    ensures reads { Gives (λ x. (x.0, views x.1.now)) result (column_part (views tokens.now)) }
    ensures shorter { IfOk result (λ x. length x.1.now ≤ length tokens.now) }
{
    let (column, rest) = name(alloc, tokens)?;
    let (word, rest) = taken(type_word(&first(rest).token), rest)?;
    let (properties, rest) = properties(alloc, rest)?;
    Ok((TablePart::Column(column, word, properties), rest))
}

fn key_part<'a, 't>(
    alloc: Global,
    tokens: &'t [Placed<'a>],
) -> Result<(TablePart, &'t [Placed<'a>]), Stop<'a>>
    ensures reads { Gives (λ x. (x.0, views x.1.now)) result (key_part (views tokens.now)) }
    ensures shorter { IfOk result (λ x. length x.1.now ≤ length tokens.now) }
{
    let rest = skip_key(tokens, "primary")?;
    let rest = skip_word(rest, "key")?;
    let rest = skip_sign(rest, "(")?;
    let (column, rest) = name(alloc, rest)?;
    let rest = skip_sign(rest, ")")?;
    Ok((TablePart::Key(column), rest))
}

fn table_part<'a, 't>(
    alloc: Global,
    tokens: &'t [Placed<'a>],
) -> Result<(TablePart, &'t [Placed<'a>]), Stop<'a>>
    ensures reads { Gives (λ x. (x.0, views x.1.now)) result (table_part (views tokens.now)) }
    ensures shorter { IfOk result (λ x. length x.1.now ≤ length tokens.now) }
{
    if at_key(tokens, "primary") {
        key_part(alloc, tokens)
    } else {
        column_part(alloc, tokens)
    }
}

impl Item for TablePart {
    ghost Seen = { TablePart };

    ghost view = { λ x. x };

    ghost rule = { λ k. table_part };

    fn read<'a, 't>(
        alloc: Global,
        _number: usize,
        tokens: &'t [Placed<'a>],
    ) -> Result<(TablePart, &'t [Placed<'a>]), Stop<'a>> {
        table_part(alloc, tokens)
    }
}

/// A CREATE TABLE, and the tokens behind it. It stops at a token that cannot stand there, or for want of memory.
pub(crate) fn create<'a, 't>(
    alloc: Global,
    tokens: &'t [Placed<'a>],
) -> Result<(CreateTable, &'t [Placed<'a>]), Stop<'a>>
    ensures reads { Gives (λ x. (view_create x.0, views x.1.now)) result (create (views tokens.now)) }
    ensures shorter { IfOk result (λ x. length x.1.now ≤ length tokens.now) }
{
    let rest = skip_word(tokens, "create")?;
    let rest = skip_key(rest, "table")?;
    let (table, rest) = name(alloc, rest)?;
    let rest = skip_sign(rest, "(")?;
    let (parts, rest) = chain::<TablePart>(alloc, ",", rest)?;
    let rest = skip_sign(rest, ")")?;
    Ok((CreateTable { table, parts }, rest))
}
