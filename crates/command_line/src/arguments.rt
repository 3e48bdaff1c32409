//! The words of commands, as `clap` takes them.

use crate::words::{
    DEFAULT_MEMORY_WORD, DEFAULT_SEED_WORD, DEFAULT_WORKERS_WORD, MAX_BOOKS, MAX_NAMES,
};
use clap::{Arg, ArgAction, value_parser};
use shard_board::MAX_SEATS;
use std::alloc::{AllocError, Global};

/// The words of an expectation, at most: a SELECT, and more values than a row has.
const MAX_EXPECTED: usize = 1_000;

/// The megabytes that states may take, at most.
const MAX_MEMORY: i64 = 1_000_000;

/// The orders of a sample, at most.
const MAX_SAMPLE: i64 = 1_000_000;

/// A word that a command takes: what it is called, what is told of it, and its form.
#[derive(Clone, Copy, Drop)]
pub struct Word {
    name: &'static str,
    help: &'static str,
    form: Form,
}

/// The forms of words.
#[derive(Clone, Copy, Drop)]
enum Form {
    /// One value.
    One,
    /// One value, unless books are named.
    OneOrBooks,
    /// A number.
    Number,
    /// A number, or none; with it there is an END.
    FirstOfAll,
    /// A number, or none.
    EndOfAll,
    /// Names of steps.
    Names,
    /// Paths of files.
    Books,
    /// `--name`
    Flag,
    /// `--name`, where books are named in place of a spec.
    FlagOfBooks,
    /// `--name`, where all orders are counted.
    FlagOfAllOrders,
    /// `--name`, of which some flags are refused.
    Page,
    /// `--name` or `--name=SESSION`, as often as wanted.
    Session,
    /// `--name SELECT`, as often as wanted.
    Select,
    /// `--name SELECT VALUE..`, as often as wanted.
    Expectation,
    /// `--name N`
    Workers,
    /// `--name MB`
    Memory,
    /// `--name N`, of which some flags are refused.
    Sample,
    /// `--name S`
    Seed,
    /// `--name LEVEL`
    Level,
    /// `--name`, in place of a level, of which most flags are refused.
    BothLevels,
    /// `--name FILE`
    File,
    /// `--name BOOK`, as often as wanted, in place of a spec.
    InPlaceOfSpec,
}

pub const SPEC: Word = Word {
    name: "SPEC",
    help: "A spec file",
    form: Form::One,
};

pub const SPEC_OR_BOOKS: Word = Word {
    name: "SPEC",
    help: "A spec file",
    form: Form::OneOrBooks,
};

pub const OF_BOOKS: Word = Word {
    name: "book",
    help: "Group the outcomes in books instead of a spec",
    form: Form::InPlaceOfSpec,
};

pub const RANK: Word = Word {
    name: "RANK",
    help: "The number of a permutation, from 0",
    form: Form::Number,
};

pub const NAMES: Word = Word {
    name: "STEP",
    help: "The names of the steps, in their order",
    form: Form::Names,
};

pub const ORDER: Word = Word {
    name: "ORDER",
    help: "The number of a permutation, or the names of its steps in their order",
    form: Form::Names,
};

pub const JSON: Word = Word {
    name: "json",
    help: "Print JSON",
    form: Form::Flag,
};

pub const HTML: Word = Word {
    name: "html",
    help: "Print a web page with a timeline for each class",
    form: Form::Page,
};

pub const ALL_ORDERS: Word = Word {
    name: "all-orders",
    help: "Count every permutation of the steps",
    form: Form::Flag,
};

pub const WAITS: Word = Word {
    name: "waits",
    help: "Only orders in which a session waits",
    form: Form::Flag,
};

pub const NO_WAITS: Word = Word {
    name: "no-waits",
    help: "Only orders in which no session waits",
    form: Form::Flag,
};

pub const DEADLOCK: Word = Word {
    name: "deadlock",
    help: "Only orders with a deadlock, or with this victim",
    form: Form::Session,
};

pub const NO_DEADLOCK: Word = Word {
    name: "no-deadlock",
    help: "Only orders without a deadlock, or without this victim",
    form: Form::Session,
};

pub const ERROR: Word = Word {
    name: "error",
    help: "Only orders with another error",
    form: Form::Flag,
};

pub const NO_ERROR: Word = Word {
    name: "no-error",
    help: "Only orders without another error",
    form: Form::Flag,
};

pub const STUCK: Word = Word {
    name: "stuck",
    help: "Only orders in which a session waits for ever",
    form: Form::Flag,
};

pub const NO_STUCK: Word = Word {
    name: "no-stuck",
    help: "Only orders in which no session waits for ever",
    form: Form::Flag,
};

pub const ANOMALY: Word = Word {
    name: "anomaly",
    help: "Only orders with an anomaly",
    form: Form::Flag,
};

pub const NO_ANOMALY: Word = Word {
    name: "no-anomaly",
    help: "Only orders without an anomaly",
    form: Form::Flag,
};

pub const NOT_SENT: Word = Word {
    name: "not-sent",
    help: "Only orders with a step not sent (--all-orders)",
    form: Form::FlagOfAllOrders,
};

pub const NO_NOT_SENT: Word = Word {
    name: "no-not-sent",
    help: "Only orders with each step sent (--all-orders)",
    form: Form::FlagOfAllOrders,
};

pub const BY_RESULT: Word = Word {
    name: "by-result",
    help: "Group by rows, counts, errors and final rows only",
    form: Form::Flag,
};

pub const EXPECT: Word = Word {
    name: "expect",
    help: "Check that a SELECT on the final rows returns these values",
    form: Form::Expectation,
};

pub const QUERY: Word = Word {
    name: "query",
    help: "Run a SELECT on the final rows of each class",
    form: Form::Select,
};

pub const FINAL_ROWS: Word = Word {
    name: "final-rows",
    help: "Print the final rows of each class",
    form: Form::Flag,
};

pub const OUTCOMES: Word = Word {
    name: "outcomes",
    help: "Print what each session receives, for each class",
    form: Form::Flag,
};

pub const RANKS: Word = Word {
    name: "ranks",
    help: "Print the ranks of each class (--book)",
    form: Form::FlagOfBooks,
};

pub const BRIEF: Word = Word {
    name: "brief",
    help: "Print the totals only",
    form: Form::Flag,
};

pub const SAMPLE: Word = Word {
    name: "sample",
    help: "Run N random orders instead of all, 1 to 1000000",
    form: Form::Sample,
};

pub const SEED: Word = Word {
    name: "seed",
    help: "Seed for --sample",
    form: Form::Seed,
};

pub const MEMORY: Word = Word {
    name: "memory",
    help: "Megabytes that states may take, 1 to 1000000",
    form: Form::Memory,
};

pub const LEVEL: Word = Word {
    name: "level",
    help: "Isolation level of transactions that name none",
    form: Form::Level,
};

pub const LEVELS: Word = Word {
    name: "levels",
    help: "Print both isolation levels side by side",
    form: Form::BothLevels,
};

pub const FIRST: Word = Word {
    name: "FIRST",
    help: "The number of the first permutation",
    form: Form::Number,
};

pub const END: Word = Word {
    name: "END",
    help: "The number behind that of the last permutation",
    form: Form::Number,
};

pub const FIRST_OF_ALL: Word = Word {
    name: "FIRST",
    help: "The number of the first permutation; all are run where none is named",
    form: Form::FirstOfAll,
};

pub const END_OF_ALL: Word = Word {
    name: "END",
    help: "The number behind that of the last permutation",
    form: Form::EndOfAll,
};

pub const EVERY: Word = Word {
    name: "every",
    help: "Runs every permutation, and skips none that a smaller one covers",
    form: Form::Flag,
};

pub const WORKERS: Word = Word {
    name: "workers",
    help: "How many workers run it, from 1 to 16",
    form: Form::Workers,
};

pub const PROGRESS: Word = Word {
    name: "progress",
    help: "Report progress on standard error",
    form: Form::Flag,
};

pub const BOOKS: Word = Word {
    name: "BOOK",
    help: "Book files of one spec",
    form: Form::Books,
};

pub const LINES: Word = Word {
    name: "lines",
    help: "Prints FIRST and END of each range that is to be run, so that none is missing",
    form: Form::Flag,
};

pub const BOOK: Word = Word {
    name: "BOOK",
    help: "A book file",
    form: Form::One,
};

pub const ACCEPTED: Word = Word {
    name: "ACCEPTED",
    help: "Book files of outcomes that are accepted",
    form: Form::Books,
};

pub const SHOW: Word = Word {
    name: "show",
    help: "Prints also what the nearest accepted book and this one tell where they differ",
    form: Form::Flag,
};

pub const SPECS: Word = Word {
    name: "PATH",
    help: "Spec files, or folders of them",
    form: Form::Books,
};

pub const UPDATE: Word = Word {
    name: "update",
    help: "Accepts the classes as they are: writes NAME.accepted beside each NAME.spec",
    form: Form::Flag,
};

pub const JUNIT: Word = Word {
    name: "junit",
    help: "Writes a report in the form of JUnit to this file",
    form: Form::File,
};

/// What is not asked of books.
static NOT_OF_BOOKS: &[&str] = &[
    "SPEC",
    "all-orders",
    "waits",
    "no-waits",
    "deadlock",
    "no-deadlock",
    "error",
    "no-error",
    "stuck",
    "no-stuck",
    "anomaly",
    "no-anomaly",
    "not-sent",
    "no-not-sent",
    "by-result",
    "expect",
    "query",
    "final-rows",
    "html",
    "progress",
    "memory",
    "sample",
    "seed",
    "level",
    "levels",
];

/// What is not asked of both levels.
static NOT_OF_LEVELS: &[&str] = &[
    "level",
    "all-orders",
    "waits",
    "no-waits",
    "deadlock",
    "no-deadlock",
    "error",
    "no-error",
    "stuck",
    "no-stuck",
    "anomaly",
    "no-anomaly",
    "not-sent",
    "no-not-sent",
    "by-result",
    "expect",
    "query",
    "json",
    "html",
    "sample",
    "seed",
];

/// The words for levels.
static LEVEL_WORDS: &[&str] = &["read-committed", "serializable"];

/// What stands for a spec.
static OF_SPEC: &[&str] = &["SPEC"];

/// What does not go with a page.
static NOT_OF_PAGES: &[&str] = &["json", "brief"];

/// What does not go with a sample: R compares with all serial orders, a page shows no intervals, and few states are noted.
static NOT_OF_SAMPLES: &[&str] = &["anomaly", "no-anomaly", "html", "progress", "memory"];

/// The word as `clap` takes it.
pub fn arg_of<'a>(alloc: Global, word: &Word) -> Result<Arg<'a>, AllocError> {
    ruled(word.form, formed(alloc, word))
}

fn formed<'a>(alloc: Global, word: &Word) -> Arg<'a> {
    match word.form {
        Form::One | Form::OneOrBooks => one(alloc, word),
        Form::Number | Form::FirstOfAll | Form::EndOfAll => number(alloc, word),
        Form::Names => some(alloc, word, MAX_NAMES),
        Form::Books => some(alloc, word, MAX_BOOKS),
        Form::Flag | Form::FlagOfBooks | Form::FlagOfAllOrders | Form::Page | Form::BothLevels => {
            flag(alloc, word)
        }
        Form::Session => session(alloc, word),
        Form::Select => select(alloc, word),
        Form::Expectation => expectation(alloc, word),
        Form::Workers => workers(alloc, word),
        Form::Memory => memory(alloc, word),
        Form::Sample => sample(alloc, word),
        Form::Seed => seed(alloc, word),
        Form::Level => level(alloc, word),
        Form::File => file(alloc, word),
        Form::InPlaceOfSpec => books(alloc, word),
    }
}

/// The word with what its form takes of others.
fn ruled<'a>(form: Form, arg: Arg<'a>) -> Result<Arg<'a>, AllocError> {
    match form {
        Form::OneOrBooks => arg.required(false).required_unless_present("book"),
        Form::FirstOfAll => arg.required(false).requires_arg("END"),
        Form::EndOfAll => Ok(arg.required(false)),
        Form::FlagOfBooks => arg.conflicts_with_all(OF_SPEC),
        Form::FlagOfAllOrders => arg.requires_arg("all-orders"),
        Form::Page => arg.conflicts_with_all(NOT_OF_PAGES),
        Form::Sample => arg.conflicts_with_all(NOT_OF_SAMPLES),
        Form::Seed => arg.requires_arg("sample"),
        Form::BothLevels => arg.conflicts_with_all(NOT_OF_LEVELS),
        Form::InPlaceOfSpec => arg.conflicts_with_all(NOT_OF_BOOKS),
        _ => Ok(arg),
    }
}

/// A word in its place.
fn place<'a>(alloc: Global, word: &Word) -> Arg<'a> {
    Arg::new(alloc, word.name).required(true).help(word.help)
}

fn one<'a>(alloc: Global, word: &Word) -> Arg<'a> {
    place(alloc, word).action(ArgAction::Set)
}

fn number<'a>(alloc: Global, word: &Word) -> Arg<'a> {
    one(alloc, word).value_parser(value_parser!(u64))
}

/// One or more, and so many at most.
fn some<'a>(alloc: Global, word: &Word, most: usize) -> Arg<'a> {
    place(alloc, word)
        .action(ArgAction::Append)
        .num_args(1..=most)
}

/// A word behind two hyphens.
fn named<'a>(alloc: Global, word: &Word) -> Arg<'a> {
    Arg::new(alloc, word.name).long(word.name).help(word.help)
}

fn flag<'a>(alloc: Global, word: &Word) -> Arg<'a> {
    named(alloc, word).action(ArgAction::SetTrue)
}

fn session<'a>(alloc: Global, word: &Word) -> Arg<'a> {
    named(alloc, word)
        .value_name("SESSION")
        .action(ArgAction::Append)
        .num_args(0..=1)
        .require_equals(true)
}

fn select<'a>(alloc: Global, word: &Word) -> Arg<'a> {
    named(alloc, word)
        .value_name("SELECT")
        .action(ArgAction::Append)
}

fn expectation<'a>(alloc: Global, word: &Word) -> Arg<'a> {
    named(alloc, word)
        .value_names(&["SELECT", "VALUE"])
        .action(ArgAction::Append)
        .num_args(2..=MAX_EXPECTED)
        .allow_negative_numbers(true)
}

fn workers<'a>(alloc: Global, word: &Word) -> Arg<'a> {
    named(alloc, word)
        .value_name("N")
        .action(ArgAction::Set)
        .value_parser(value_parser!(u8).range(1..=i64::from(MAX_SEATS)))
        .default_value(DEFAULT_WORKERS_WORD)
}

fn memory<'a>(alloc: Global, word: &Word) -> Arg<'a> {
    named(alloc, word)
        .value_name("MB")
        .action(ArgAction::Set)
        .value_parser(value_parser!(u64).range(1..=MAX_MEMORY))
        .default_value(DEFAULT_MEMORY_WORD)
}

fn sample<'a>(alloc: Global, word: &Word) -> Arg<'a> {
    named(alloc, word)
        .value_name("N")
        .action(ArgAction::Set)
        .value_parser(value_parser!(u32).range(1..=MAX_SAMPLE))
}

fn seed<'a>(alloc: Global, word: &Word) -> Arg<'a> {
    named(alloc, word)
        .value_name("S")
        .action(ArgAction::Set)
        .value_parser(value_parser!(u64))
        .default_value(DEFAULT_SEED_WORD)
}

fn level<'a>(alloc: Global, word: &Word) -> Arg<'a> {
    named(alloc, word)
        .value_name("LEVEL")
        .action(ArgAction::Set)
        .value_parser(LEVEL_WORDS)
}

fn file<'a>(alloc: Global, word: &Word) -> Arg<'a> {
    named(alloc, word).value_name("FILE")
}

fn books<'a>(alloc: Global, word: &Word) -> Arg<'a> {
    named(alloc, word)
        .value_name("BOOK")
        .action(ArgAction::Append)
        .num_args(1..=MAX_BOOKS)
}
