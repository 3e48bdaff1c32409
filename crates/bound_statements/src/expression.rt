//! Expressions over the columns of a row.

use lock_modes::Value;
use sqlite_items::Items;

/// A value, or a column of the row.
pub enum Operand {
    Literal(Value),
    /// The column's number, from 0.
    Column(u16),
}

impl Drop for Operand {
    fn drop(self) {
        match self {
            Operand::Literal(_value) => {}
            Operand::Column(_u16) => {}
        }
    }
}

/// One or more operands, which are multiplied from the left.
pub struct Product {
    pub first: Operand,
    /// Those behind the first, in their order.
    pub more: Items<Operand>,
}

impl Drop for Product {
    fn drop(self) {
        let Product {
            first: _first,
            more: _more,
        } = self;
    }
}

/// What stands between two products.
#[derive(Clone, Copy, PartialEq, Eq)]
pub enum AddSign {
    Plus,
    Minus,
}

/// A product behind its sign.
#[derive(Drop)]
pub struct SignedProduct {
    pub sign: AddSign,
    pub product: Product,
}

/// One or more products, which are added and subtracted from the left.
pub struct Expression {
    pub first: Product,
    /// Those behind the first, in their order.
    pub more: Items<SignedProduct>,
}

// Written out and not derived, so that who owns one calls this and does not let its parts go one by one.
impl Drop for Expression {
    fn drop(self) {
        let Expression {
            first: _first,
            more: _more,
        } = self;
    }
}
