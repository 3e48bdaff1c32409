//! Statements as they are written.

use crate::expression::{Chain, Condition, Factor, Literal, Sum};
use lock_modes::Text;
use sqlite_items::Items;

/// The type of a column.
#[derive(Clone, Copy)]
pub enum TypeWord {
    Int,
    Integer,
    Int4,
    BigInt,
    Int8,
    Text,
}

/// What stands behind the type of a column.
#[derive(Clone, Copy)]
pub enum Property {
    PrimaryKey,
    NotNull,
}

/// A part of a table's declaration.
#[derive(Drop)]
pub enum TablePart {
    Column(Text, TypeWord, Items<Property>),
    /// `PRIMARY KEY (name)`
    Key(Text),
}

/// `CREATE TABLE table (part, ..)`
#[derive(Drop)]
pub struct CreateTable {
    pub table: Text,
    pub parts: Chain<TablePart>,
}

/// `INSERT INTO table [(name, ..)] VALUES (literal, ..), ..`, of at most 100 rows.
#[derive(Drop)]
pub struct Insert {
    pub table: Text,
    pub columns: Option<Chain<Text>>,
    pub rows: Chain<Chain<Literal>>,
}

/// The order of a column.
#[derive(Clone, Copy)]
pub enum Direction {
    Ascending,
    Descending,
}

/// A column that rows are sorted by.
#[derive(Drop)]
pub struct SortKey {
    pub column: Text,
    /// Ascending, where none is written.
    pub direction: Option<Direction>,
}

/// A number over all rows that match.
#[derive(Drop)]
pub enum Aggregate {
    /// `COUNT(*)`
    Count,
    /// `SUM(column)`
    Total(Text),
}

/// What a SELECT locks its rows for.
#[derive(Clone, Copy)]
pub enum LockedFor {
    Update,
    Share,
}

/// `FOR UPDATE|SHARE [NOWAIT]`
#[derive(Clone, Copy)]
pub struct RowLock {
    pub locked_for: LockedFor,
    /// Whether NOWAIT is written.
    pub nowait: bool,
}

/// What a SELECT shows, and how it locks the rows that it shows. Behind aggregates no lock can be written.
#[derive(Drop)]
pub enum Selected {
    /// `*`
    All(Option<RowLock>),
    Columns(Chain<Text>, Option<RowLock>),
    Aggregates(Chain<Aggregate>),
}

/// `SELECT items FROM table [WHERE condition] [ORDER BY key, ..] [FOR UPDATE|SHARE [NOWAIT]]`
#[derive(Drop)]
pub struct Select {
    pub items: Selected,
    pub table: Text,
    pub condition: Option<Condition>,
    pub order: Option<Chain<SortKey>>,
}

/// `column = value`
#[derive(Drop)]
pub struct Assignment {
    pub column: Text,
    pub value: Sum,
}

/// `UPDATE table SET assignment, .. [WHERE condition]`
#[derive(Drop)]
pub struct Update {
    pub table: Text,
    pub assignments: Chain<Assignment>,
    pub condition: Option<Condition>,
}

/// `DELETE FROM table [WHERE condition]`
#[derive(Drop)]
pub struct Delete {
    pub table: Text,
    pub condition: Option<Condition>,
}

/// A word that means nothing.
#[derive(Clone, Copy)]
pub enum Noise {
    Work,
    Transaction,
}

/// What READ is followed by in an isolation level.
#[derive(Clone, Copy)]
pub enum ReadWord {
    Committed,
    Uncommitted,
}

/// An isolation level.
#[derive(Clone, Copy)]
pub enum Level {
    Serializable,
    RepeatableRead,
    Read(ReadWord),
}

/// The words that begin a transaction block.
#[derive(Clone, Copy)]
pub enum Start {
    /// `BEGIN`, and what may follow.
    BeginWord(Option<Noise>),
    /// `START TRANSACTION`
    StartWords,
}

/// `BEGIN ..`, or `START TRANSACTION ..`
#[derive(Clone, Copy)]
pub struct Begin {
    pub start: Start,
    /// What follows ISOLATION LEVEL.
    pub level: Option<Level>,
}

/// The word that ends a transaction. END is COMMIT, and ABORT is ROLLBACK.
#[derive(Clone, Copy)]
pub enum EndWord {
    Commit,
    End,
    Rollback,
    Abort,
}

/// `COMMIT`, `ROLLBACK` or another word for them.
#[derive(Clone, Copy)]
pub struct End {
    pub word: EndWord,
    pub noise: Option<Noise>,
}

/// The last word of some lock modes.
#[derive(Clone, Copy)]
pub enum Strength {
    Share,
    Exclusive,
}

/// The mode of a LOCK TABLE, by its words.
#[derive(Clone, Copy)]
pub enum LockMode {
    /// `ACCESS SHARE` or `ACCESS EXCLUSIVE`
    Access(Strength),
    /// `ROW SHARE` or `ROW EXCLUSIVE`
    RowLevel(Strength),
    /// `SHARE`, or `SHARE ROW EXCLUSIVE`
    Shared { row_exclusive: bool },
    /// `EXCLUSIVE`
    Exclusively,
}

/// `LOCK [TABLE] table [IN mode MODE] [NOWAIT]`
#[derive(Drop)]
pub struct TableLock {
    /// Whether TABLE is written.
    pub table_word: bool,
    pub table: Text,
    pub mode: Option<LockMode>,
    /// Whether NOWAIT is written.
    pub nowait: bool,
}

/// What a SET applies to.
#[derive(Clone, Copy)]
pub enum Scope {
    Local,
    Session,
}

/// What stands between the name and the value of a SET.
#[derive(Clone, Copy)]
pub enum SetSign {
    /// `=`
    EqualSign,
    /// `TO`
    ToWord,
}

/// `SET [LOCAL|SESSION] name = value`
#[derive(Drop)]
pub struct Setting {
    pub scope: Option<Scope>,
    pub name: Text,
    pub sign: SetSign,
    pub value: Factor,
}

/// The forms of statements.
#[derive(Drop)]
pub enum Form {
    CreateTable(CreateTable),
    Insert(Insert),
    Select(Select),
    Update(Update),
    Delete(Delete),
    Begin(Begin),
    End(End),
    Lock(TableLock),
    Set(Setting),
}

/// A statement as it is written.
#[derive(Drop)]
pub struct Statement {
    /// The offset of its first byte in the block.
    pub at: usize,
    pub form: Form,
}
