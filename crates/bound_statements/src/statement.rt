//! Statements as the machine runs them.

ghost use Rattle.std.specs.Prelude.{◌≡◌};
ghost use Rattle.bound_statements.specs.Levels.{block_level, levelled, lock_at, named_by};

use crate::condition::Condition;
use crate::expression::Expression;
use lock_modes::{Mode, Row, Value};
use sqlite_items::Items;

/// A number over the rows that match.
#[derive(Clone, Copy, PartialEq, Eq)]
pub enum Aggregate {
    Count,
    /// The exact total of a column.
    Sum(u16),
}

/// What a select shows.
pub enum Output {
    /// These columns of each row, in this order.
    Columns(Items<u16>),
    /// One row of these numbers.
    Aggregates(Items<Aggregate>),
}

impl Drop for Output {
    fn drop(self) {
        match self {
            Output::Columns(_items) => {}
            Output::Aggregates(_items) => {}
        }
    }
}

/// How the rows stand that a column sorts.
#[derive(Clone, Copy, PartialEq, Eq)]
pub enum Order {
    Rises,
    Falls,
}

/// A column that a select sorts by.
#[derive(Clone, Copy, PartialEq, Eq)]
pub struct SortKey {
    pub column: u16,
    pub order: Order,
}

/// A column that an update sets.
#[derive(Drop)]
pub struct Assignment {
    pub column: u16,
    pub value: Expression,
}

/// How a transaction reads.
#[derive(Clone, Copy, PartialEq, Eq)]
pub enum Level {
    /// What a statement reads is locked until the transaction ends.
    Serializable,
    /// A plain select asks for no lock, and reads what is committed at that moment.
    Committed,
}

impl Level {
    /// The level of a transaction where this one is named, or none.
    pub fn of_transaction(named: Option<Level>) -> Level
        ensures { result ≡ block_level named }
    {
        match named {
            None => Level::Serializable,
            Some(level) => level,
        }
    }
}

/// How a select locks the rows that it looks at.
#[derive(Clone, Copy, PartialEq, Eq)]
pub struct RowLock {
    /// Whether it asks for what a change of these rows asks for. It asks for what reading asks for where it does not.
    pub exclusive: bool,
    /// Whether its requests refuse to wait.
    pub nowait: bool,
    /// The level of a plain select where no block has another one. None of a select that asks for its locks at each level, as FOR UPDATE and FOR SHARE
    /// do, and as each select does where levels are not asked for.
    pub level: Option<Level>,
}

impl RowLock {
    /// The lock at a level, or without one, where it has any.
    pub(crate) fn at(self, level: Option<Level>) -> RowLock
        ensures { result ≡ lock_at level self }
    {
        RowLock {
            exclusive: self.exclusive,
            nowait: self.nowait,
            level: match self.level {
                None => None,
                Some(_) => level,
            },
        }
    }
}

/// A statement whose tables and columns are numbers, which stand for their places among the declared tables and among the
/// columns of a table. `Option<Value>` is the key of the row that the statement names: the literal of its first key part.
pub enum Bound {
    Select(u16, Option<Value>, Condition, Items<SortKey>, Output, RowLock),
    /// New rows, with all columns in their order, and which of them is the table's key, if it has one.
    Insert(u16, Option<u16>, Items<Row>),
    Update(u16, Option<Value>, Items<Assignment>, Condition),
    Delete(u16, Option<Value>, Condition),
    /// The level of the block that it makes, if it has one. None where levels are not asked for.
    Begin(Option<Level>),
    Commit,
    Rollback,
    /// A mode on the table, and whether its request refuses to wait.
    Lock(u16, Mode, bool),
    SetVariable,
}

// Written out and not derived, so that who owns one calls this and does not let its parts go one by one.
impl Drop for Bound {
    fn drop(self) {
        match self {
            Bound::Select(_, _b, _c, _d, _e, _) => {}
            Bound::Insert(_, _, _c) => {}
            Bound::Update(_, _b, _c, _d) => {}
            Bound::Delete(_, _b, _c) => {}
            Bound::Begin(_) => {}
            Bound::Commit => {}
            Bound::Rollback => {}
            Bound::Lock(_, _, _) => {}
            Bound::SetVariable => {}
        }
    }
}

impl Bound {
    /// The statement where levels are asked for, with this one for each transaction that names none; or where they are not asked for.
    pub fn levelled(self, asked: Option<Level>) -> Bound
        ensures { result ≡ levelled asked self }
    {
        match self {
            Bound::Select(table, key, condition, order, output, lock) => {
                Bound::Select(table, key, condition, order, output, lock.at(asked))
            }
            Bound::Begin(named) => Bound::Begin(named_by(asked, named)),
            Bound::Insert(table, key_column, rows) => Bound::Insert(table, key_column, rows),
            Bound::Update(table, key, sets, condition) => {
                Bound::Update(table, key, sets, condition)
            }
            Bound::Delete(table, key, condition) => Bound::Delete(table, key, condition),
            Bound::Commit => Bound::Commit,
            Bound::Rollback => Bound::Rollback,
            Bound::Lock(table, mode, nowait) => Bound::Lock(table, mode, nowait),
            Bound::SetVariable => Bound::SetVariable,
        }
    }
}

/// The level of a BEGIN that names this one, or none.
fn named_by(asked: Option<Level>, named: Option<Level>) -> Option<Level>
    ensures { result ≡ named_by asked named }
{
    let default = asked?;
    match named {
        Some(level) => Some(level),
        None => Some(default),
    }
}
