//! The grammar of the SQL subset: tokens and how they are cut, statements as they are written, and what is wrong with a block that has none.
#![tactic(auto)]

mod cutting;
mod error;
mod expression;
mod statement;
mod token;

pub use cutting::quoted_len;
pub use error::{Failure, Limit, SqlError, SqlErrorKind, Stop, Why};
pub use expression::{
    AddSign, Atom, Chain, Comparison, Condition, Factor, Literal, Part, SignedTerm, Sum,
};
pub use statement::{
    Aggregate, Assignment, Begin, CreateTable, Delete, Direction, End, EndWord, Form, Insert,
    Level, LockMode, LockedFor, Noise, Property, ReadWord, RowLock, Scope, Select, Selected,
    SetSign, Setting, SortKey, Start, Statement, Strength, TableLock, TablePart, TypeWord, Update,
};
pub use token::{Placed, Token};

/// The rows of an INSERT, at most.
pub const MAX_ROWS: usize = 100;

/// How deep NOT and parentheses are in a condition, at most.
pub const MAX_DEPTH: usize = 32;
