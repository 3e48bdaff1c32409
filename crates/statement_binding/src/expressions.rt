//! Binds expressions: names become the numbers of columns.

ghost use Rattle.std.specs.Prelude.{◌≡◌};
ghost use Rattle.sql_grammar.specs.Views.{chain_of, view_sum};
ghost use Rattle.binding_model.specs.Refusals.{Binds, each};
ghost use Rattle.binding_model.specs.Translation as spec;

use binding_model::{BindErrorKind, BindStop, Table, refused};
use bound_statements::{AddSign, Expression, Operand, Product, SignedProduct};
use lock_modes::{Text, Value};
use sql_grammar::{AddSign as SignWord, Chain, Factor, Literal, SignedTerm, SqlErrorKind, Sum};
use sqlite_items::Items;
use std::alloc::Global;

/// The value of a literal. What is read has one.
pub(crate) fn value(alloc: Global, at: usize, literal: &Literal) -> Result<Value, BindStop>
    ensures { Binds (λ value. value) result (spec.value at literal.now) }
{
    match literal {
        Literal::Quoted(text) => Ok(Value::Text(Text::from_str(alloc, text.as_str())?)),
        Literal::Whole { .. } => match literal.number() {
            Some(number) => Ok(Value::Int(number)),
            None => Err(refused(at, BindErrorKind::Sql(SqlErrorKind::NumberTooLarge))),
        },
    }
}

fn operand(alloc: Global, table: &Table, at: usize, factor: &Factor) -> Result<Operand, BindStop>
    ensures { Binds (λ operand. operand) result (spec.operand table.now at factor.now) }
{
    match factor {
        Factor::Value(literal) => Ok(Operand::Literal(value(alloc, at, literal)?)),
        Factor::Column(name) => Ok(Operand::Column(table.column(at, name.as_str())?)),
    }
}

fn operands(
    alloc: Global,
    table: &Table,
    at: usize,
    factors: &[Factor],
) -> Result<Vec<Operand>, BindStop>
    ensures { Binds (λ all. all.items) result (each (spec.operand table.now at) factors.now) }
{
    let mut all = Vec::new(alloc);
    for factor in factors {
        all.push(operand(alloc, table, at, factor)?)?;
    }
    Ok(all)
}

#[tactic(auto, using(crate::proofs::ChainLemmas::chains))]
fn product(
    alloc: Global,
    table: &Table,
    at: usize,
    term: &Chain<Factor>,
) -> Result<Product, BindStop>
    ensures { Binds (λ product. product) result (spec.product table.now at (chain_of term.now)) }
{
    let first = operand(alloc, table, at, &term.first)?;
    let more = operands(alloc, table, at, term.more.as_slice())?;
    Ok(Product {
        first,
        more: Items::from_vec(more),
    })
}

fn sign(sign: SignWord) -> AddSign
    ensures { result ≡ spec.sign_of sign }
{
    match sign {
        SignWord::Plus => AddSign::Plus,
        SignWord::Minus => AddSign::Minus,
    }
}

fn signed(
    alloc: Global,
    table: &Table,
    at: usize,
    term: &SignedTerm,
) -> Result<SignedProduct, BindStop>
    ensures { Binds (λ signed. signed) result (spec.signed table.now at (term.now.sign, chain_of term.now.term)) }
{
    let product = product(alloc, table, at, &term.term)?;
    Ok(SignedProduct {
        sign: sign(term.sign),
        product,
    })
}

fn signed_terms(
    alloc: Global,
    table: &Table,
    at: usize,
    terms: &[SignedTerm],
) -> Result<Vec<SignedProduct>, BindStop>
    ensures { Binds (λ all. all.items) result (each (λ term. spec.signed table.now at (term.sign, chain_of term.term)) terms.now) }
{
    let mut all = Vec::new(alloc);
    for term in terms {
        all.push(signed(alloc, table, at, term)?)?;
    }
    Ok(all)
}

/// Binds an expression over the columns of a table, of a statement that begins at this offset.
#[tactic(auto, using(crate::proofs::ChainLemmas::chains))]
pub(crate) fn expression(
    alloc: Global,
    table: &Table,
    at: usize,
    sum: &Sum,
) -> Result<Expression, BindStop>
    ensures { Binds (λ expression. expression) result (spec.expression table.now at (view_sum sum.now)) }
{
    let first = product(alloc, table, at, &sum.first)?;
    let more = signed_terms(alloc, table, at, sum.more.as_slice())?;
    Ok(Expression {
        first,
        more: Items::from_vec(more),
    })
}
