//! Expressions and conditions as they are written.

ghost use Rattle.std.specs.Prelude.{◌≡◌, true};
ghost use Rattle.sql_grammar.specs.Numbers.{whole_of, number_of};

use lock_modes::Text;
use sqlite_items::{Boxed, Items};

/// One or more.
#[derive(Drop)]
pub struct Chain<T> {
    pub first: T,
    /// Those behind the first, in their order.
    pub more: Items<T>,
}

/// A value as it is written.
#[derive(Drop)]
pub enum Literal {
    /// A whole number. What is read is one of i64.
    Whole { negative: bool, digits: u64 },
    /// A text, each doubled quote once.
    Quoted(Text),
}

impl Literal {
    /// The whole number, if this is one of i64.
    pub fn number(&self) -> Option<i64>
        ensures { result ≡ number_of self.now }
    {
        match self {
            Literal::Whole {
                negative: true,
                digits,
            } => negated(*digits),
            Literal::Whole {
                negative: false,
                digits,
            } => i64::try_from(*digits).ok(),
            Literal::Quoted(_) => None,
        }
    }
}

/// The number below zero, if it is one of i64.
fn negated(digits: u64) -> Option<i64>
    ensures { result ≡ whole_of true digits }
{
    if digits < 1 << 63 {
        Some(-(digits as i64))
    } else if digits == 1 << 63 {
        Some(i64::MIN)
    } else {
        None
    }
}

/// A value, or a column of the row.
#[derive(Drop)]
pub enum Factor {
    Value(Literal),
    Column(Text),
}

/// What stands between two terms of a sum.
#[derive(Clone, Copy)]
pub enum AddSign {
    Plus,
    Minus,
}

/// A term behind its sign.
#[derive(Drop)]
pub struct SignedTerm {
    pub sign: AddSign,
    /// Factors that are multiplied from the left.
    pub term: Chain<Factor>,
}

/// Terms with signs between them, which are added and subtracted from the left.
pub struct Sum {
    /// Factors that are multiplied from the left.
    pub first: Chain<Factor>,
    pub more: Items<SignedTerm>,
}

// Written out and not derived, so that who owns one calls this and does not let its parts go one by one.
impl Drop for Sum {
    fn drop(self) {
        let Sum {
            first: _first,
            more: _more,
        } = self;
    }
}

/// How two values are compared.
#[derive(Clone, Copy)]
pub enum Comparison {
    /// `=`
    Equal,
    /// `<>`
    Unequal,
    /// `!=`, which means the same as `<>`.
    Differs,
    /// `<`
    Less,
    /// `<=`
    AtMost,
    /// `>`
    Greater,
    /// `>=`
    AtLeast,
}

/// A part of a condition that neither AND nor OR splits.
#[derive(Drop)]
#[cycle(condition)]
pub enum Atom {
    Compares(Sum, Comparison, Sum),
    Not(Boxed<Atom>),
    /// A condition in parentheses.
    Group(Boxed<Condition>),
}

/// One or more with AND between them.
#[derive(Drop)]
#[cycle(condition)]
pub struct Part {
    pub first: Atom,
    pub more: Items<Atom>,
}

/// One or more with OR between them. NOT and parentheses are at most 32 levels deep.
#[derive(Drop)]
#[cycle(condition)]
pub struct Condition {
    pub first: Part,
    pub more: Items<Part>,
}
