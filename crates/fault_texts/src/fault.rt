//! Why the program stops without an answer.

ghost use Rattle.std.specs.Prelude.{◌≡◌};
ghost use Rattle.fault_texts.specs.Status.{status_of};

use thiserror::Error;

/// Why the program stops without an answer. Its text is the line on standard error; a path is the word of the command line.
#[derive(Debug, Drop, Error)]
pub enum ProgramFault<'a> {
    /// The file is no spec.
    #[error("isofarm: {path}: spec error {kind} at {offset}")]
    Spec {
        path: &'a str,
        kind: u8,
        offset: u64,
    },
    /// A block of the spec is no SQL that the program knows.
    #[error("isofarm: {path}: sql error {kind} at {offset}")]
    Sql {
        path: &'a str,
        kind: u8,
        offset: u64,
    },
    /// The statements of the spec do not fit its tables.
    #[error("isofarm: {path}: bind error {kind} at {offset}")]
    Bind {
        path: &'a str,
        kind: u8,
        offset: u64,
    },
    /// A line of the spec asks for a level that there is not.
    #[error("isofarm: {path}: no such level (line {line})")]
    NoSuchLevel {
        path: &'a str,
        line: usize,
    },
    /// A second line of the spec asks for a level.
    #[error("isofarm: {path}: a second level (line {line})")]
    SecondLevel {
        path: &'a str,
        line: usize,
    },
    /// Where levels are asked for a transaction begins at one that is not modelled.
    #[error("isofarm: {path}: REPEATABLE READ is not modelled (line {line})")]
    NotModelled {
        path: &'a str,
        line: usize,
    },
    /// The spec does not start. The number is that of the setup block or of the session.
    #[error("isofarm: {path}: start error {kind} at {number}")]
    Start {
        path: &'a str,
        kind: u8,
        number: u64,
    },
    /// The spec has no permutation of this rank.
    #[error("isofarm: {path}: rank out of range")]
    RankOutOfRange {
        path: &'a str,
    },
    /// No step of the spec has this name.
    #[error("isofarm: {path}: no step {name:?}")]
    NoStep {
        path: &'a str,
        name: &'a str,
    },
    /// The order has the step of this name twice.
    #[error("isofarm: {path}: step {name:?} twice")]
    Twice {
        path: &'a str,
        name: &'a str,
    },
    /// The order has a step before an earlier one of its session, which is due.
    #[error("isofarm: {path}: step {name:?} before {due:?}")]
    OutOfTurn {
        path: &'a str,
        name: &'a str,
        due: String,
    },
    /// The order leaves out the step of this name.
    #[error("isofarm: {path}: step {due:?} left out")]
    LeftOut {
        path: &'a str,
        due: String,
    },
    /// The order is none of the spec's permutation lines.
    #[error("isofarm: {path}: no such line")]
    NoLine {
        path: &'a str,
    },
    /// No session of the spec has this name.
    #[error("isofarm: {path}: no session {name:?}")]
    NoSession {
        path: &'a str,
        name: &'a str,
    },
    /// The spec has permutation lines, so that its orders are not compared with serial ones.
    #[error("isofarm: {path}: no serial orders")]
    NoSerialOrders {
        path: &'a str,
    },
    /// The orders of the spec lead to more different states than there is room for: so many were noted.
    #[error("isofarm: {path}: too many different states: more than {noted}; classes --sample N looks at random orders")]
    TooManyStates {
        path: &'a str,
        noted: u64,
    },
    /// A look is no SQL that the program knows.
    #[error("isofarm: {text:?}: sql error {kind} at {offset}")]
    LookSql {
        text: &'a str,
        kind: u8,
        offset: u64,
    },
    /// A look does not fit the tables of the spec.
    #[error("isofarm: {text:?}: bind error {kind} at {offset}")]
    LookBind {
        text: &'a str,
        kind: u8,
        offset: u64,
    },
    /// A look is not one SELECT alone.
    #[error("isofarm: {text:?}: not one SELECT")]
    NotOneSelect {
        text: &'a str,
    },
    /// A word is no value.
    #[error("isofarm: {word:?}: no value")]
    NoValue {
        word: &'a str,
    },
    /// The range is none of the spec, or too long.
    #[error("isofarm: {path}: shard error {kind}")]
    Shard {
        path: &'a str,
        kind: u8,
    },
    /// The file is no book.
    #[error("isofarm: {path}: book error {kind}")]
    Book {
        path: &'a str,
        kind: u8,
    },
    /// The book to write is over its limit.
    #[error("isofarm: book error 8")]
    BookTooLarge,
    /// The book is of another spec than those before it.
    #[error("isofarm: {path}: books of different specs")]
    OtherSpec {
        path: &'a str,
    },
    /// The book's spec has more ranks than a report may have.
    #[error("isofarm: {path}: too many ranks")]
    TooManyRanks {
        path: &'a str,
    },
    /// In a folder that is to be tested there is no spec.
    #[error("isofarm: {path}: no specs")]
    NoSpecs {
        path: &'a str,
    },
    /// More specs are to be tested than may be at once.
    #[error("isofarm: too many specs")]
    TooManySpecs,
    /// The least rank that has not exactly one value has none.
    #[error("isofarm: {path}: missing rank {rank}")]
    Missing {
        path: &'a str,
        rank: u64,
    },
    /// The least rank that has not exactly one value has more than one.
    #[error("isofarm: {path}: clash at rank {rank}")]
    Clash {
        path: &'a str,
        rank: u64,
    },
    /// The file of a check is no spec: the line that tells it elsewhere, and behind it where in the file that is and what is wrong.
    #[error("{told}")]
    Explained {
        told: String,
    },
    /// Memory ran out, anywhere.
    #[error("isofarm: no memory")]
    NoMemory,
    /// A file was not opened or not read.
    #[error("isofarm: {path}: read fault")]
    Read {
        path: &'a str,
    },
    /// Standard output was not written.
    #[error("isofarm: write fault")]
    Write,
}

impl ProgramFault<'_> {
    /// The exit status: 1 for a rank without exactly one value, 3 for what is refused, 4 for want of memory, 5 for a read or write fault.
    pub fn status(&self) -> u8
        ensures { result ≡ status_of self.now }
    {
        match self {
            ProgramFault::Missing { .. } | ProgramFault::Clash { .. } => 1,
            ProgramFault::Spec { .. }
            | ProgramFault::Sql { .. }
            | ProgramFault::Bind { .. }
            | ProgramFault::NoSuchLevel { .. }
            | ProgramFault::SecondLevel { .. }
            | ProgramFault::NotModelled { .. }
            | ProgramFault::Start { .. }
            | ProgramFault::RankOutOfRange { .. }
            | ProgramFault::NoStep { .. }
            | ProgramFault::Twice { .. }
            | ProgramFault::OutOfTurn { .. }
            | ProgramFault::LeftOut { .. }
            | ProgramFault::NoLine { .. }
            | ProgramFault::NoSession { .. }
            | ProgramFault::NoSerialOrders { .. }
            | ProgramFault::TooManyStates { .. }
            | ProgramFault::LookSql { .. }
            | ProgramFault::LookBind { .. }
            | ProgramFault::NotOneSelect { .. }
            | ProgramFault::NoValue { .. }
            | ProgramFault::Shard { .. }
            | ProgramFault::Book { .. }
            | ProgramFault::BookTooLarge
            | ProgramFault::OtherSpec { .. }
            | ProgramFault::TooManyRanks { .. }
            | ProgramFault::NoSpecs { .. }
            | ProgramFault::TooManySpecs
            | ProgramFault::Explained { .. } => 3,
            ProgramFault::NoMemory => 4,
            ProgramFault::Read { .. } | ProgramFault::Write => 5,
        }
    }
}
