//! What the words of a command line ask for.

ghost use Rattle.std.specs.Prelude.{◌≡◌, IfOk, IfErr, false, map, string_bytes};
ghost use Rattle.clap.specs.Words.{kind_of};
ghost use Rattle.clap.specs.declared.error.ErrorKind.TheVariants.{OutOfMemory};
ghost use Rattle.command_line.specs.Lines.{AsksFor, IsLine, Line};
ghost use Rattle.command_line.specs.Inputs.{repeats_input};

use crate::commands::command;
use crate::inputs::repeats_input;
use crate::matches::asked_of;
use crate::paths::Paths;
use crate::plain::plain_line;
use crate::ranks::WantedRanks;
use crate::renamed::renamed_in;
use crate::wanted::Wanted;
use bound_statements::Level;
use clap::Error;
use clap::error::ErrorKind;
use shard_board::Workers;
use std::alloc::{AllocError, Global};
use wanted_classes::{WantedClasses, WantedLevels, WantedOutcomes};

/// The books of a join, and the accepted books of a judgement, at most.
pub const MAX_BOOKS: usize = 1_000;

/// The names of an order, at most. A spec has orders of far fewer.
pub const MAX_NAMES: usize = 1_000;

/// How many workers run a range where the words name no number.
pub const DEFAULT_WORKERS: u8 = 4;

/// The same number, as `clap` takes it.
pub const DEFAULT_WORKERS_WORD: &str = "4";

/// How many megabytes the states of a spec may take where the words name no number, as `clap` takes it.
pub const DEFAULT_MEMORY_WORD: &str = "2000";

/// The seed of a sample where the words name no other, as `clap` takes it.
pub const DEFAULT_SEED_WORD: &str = "1";

/// What the words ask for.
#[derive(Drop)]
pub enum Asked<'a> {
    /// One permutation of the spec at a path.
    One {
        path: &'a str,
        rank: u64,
    },
    /// Whether the file at a path is a spec, and how much it has.
    Check {
        path: &'a str,
    },
    /// The number of permutations of the spec at a path.
    Count {
        path: &'a str,
    },
    /// The rank of the order of steps with these names, in the spec at a path.
    Rank {
        path: &'a str,
        names: Vec<&'a str>,
    },
    /// The names of the steps of a permutation of the spec at a path.
    Order {
        path: &'a str,
        rank: u64,
    },
    /// What happens in one order of the spec at a path, moment by moment, as text or as JSON, at a level or at the one for which the file asks.
    Show {
        path: &'a str,
        order: Wanted<'a>,
        json: bool,
        level: Option<Level>,
    },
    /// Orders of the spec at a path in classes, and whether it is told how far that is.
    Classes {
        path: &'a str,
        wanted: WantedClasses<'a>,
        progress: bool,
    },
    /// Orders of the spec at a path in classes at both levels, and whether it is told how far that is.
    Levels {
        path: &'a str,
        wanted: WantedLevels,
        progress: bool,
    },
    /// What the books at one path or more tell of the orders of their spec, in classes.
    Outcomes {
        paths: Paths<'a>,
        wanted: WantedOutcomes,
    },
    /// The book of some ranks of the spec at a path, and whether it is told how far that is.
    Run {
        path: &'a str,
        ranks: WantedRanks,
        every: bool,
        workers: Workers,
        progress: bool,
    },
    /// The join of the books at one path or more.
    Join {
        paths: Paths<'a>,
    },
    /// Which ranks the books at one path or more miss, or which are to be run, as lines for what runs them.
    Missing {
        paths: Paths<'a>,
        lines: bool,
    },
    /// Whether the book at a path is of the spec at another, and has a fact of each rank from the first up to but not the end.
    Holds {
        path: &'a str,
        spec: &'a str,
        first: u64,
        end: u64,
    },
    /// The report of the book at a path.
    Report {
        path: &'a str,
    },
    /// Whether each fact of the book at a path is true.
    Audit {
        path: &'a str,
    },
    /// The report of the book at a path, beside those of accepted books, and whether it is shown where the nearest of them differs.
    Judge {
        path: &'a str,
        accepted: Vec<&'a str>,
        show: bool,
    },
    /// The specs at one path or more, beside their accepted texts, at a level or each at the one for which its file asks; whether the accepted texts are
    /// to be as the specs are; and where a report is written.
    Test {
        paths: Paths<'a>,
        updates: bool,
        junit: Option<&'a str>,
        workers: Workers,
        level: Option<Level>,
    },
}

/// What the words ask for, the first of which is the program's name.
pub fn parse_words<'a>(alloc: Global, words: &'a [String]) -> Result<Asked<'a>, Error>
    ensures asked { IfOk result (λ asked. (line : Line) → IsLine (map string_bytes words.now) line → AsksFor line asked) }
    ensures refused { IfErr result (λ e. (line : Line) → IsLine (map string_bytes words.now) line → kind_of e ≡ OutOfMemory) }
    ensures once { IfOk result (λ asked. repeats_input asked ≡ false) }
{
    match asked_by(alloc, words) {
        Ok(asked) => read_once(alloc, asked),
        Err(error) => Err(error),
    }
}

/// What the words ask for, which may be standard input twice.
fn asked_by<'a>(alloc: Global, words: &'a [String]) -> Result<Asked<'a>, Error>
    ensures asked { IfOk result (λ asked. (line : Line) → IsLine (map string_bytes words.now) line → AsksFor line asked) }
    ensures refused { IfErr result (λ e. (line : Line) → IsLine (map string_bytes words.now) line → kind_of e ≡ OutOfMemory) }
{
    match plain_line(alloc, words)? {
        Some(asked) => Ok(asked),
        None => other_line(alloc, words),
    }
}

/// The same, where standard input is one of its files at most.
fn read_once<'a>(alloc: Global, asked: Asked<'a>) -> Result<Asked<'a>, Error>
    ensures same { IfOk result (λ a. (a ≡ asked.entry) × (repeats_input a ≡ false)) }
    ensures refused { IfErr result (λ e. repeats_input asked.entry ≡ false → kind_of e ≡ OutOfMemory) }
{
    if repeats_input(&asked) {
        return Err(input_again(alloc)?);
    }
    Ok(asked)
}

/// The fault of words that ask for standard input twice.
fn input_again(alloc: Global) -> Result<Error, AllocError> {
    command(alloc)?.error(
        ErrorKind::ArgumentConflict,
        "the file '-', which is standard input, can be read once only",
    )
}

/// What words ask for that are no plain line.
fn other_line<'a>(alloc: Global, words: &'a [String]) -> Result<Asked<'a>, Error> {
    if let Some(told) = renamed_in(words) {
        return Err(renamed_flag(alloc, told)?);
    }
    let matches = command(alloc)?.try_get_matches_from(words)?;
    match asked_of(alloc, &matches)? {
        Some(asked) => Ok(asked),
        None => Err(no_command(alloc)?),
    }
}

/// The fault of words with a flag that has another name now.
fn renamed_flag(alloc: Global, told: &str) -> Result<Error, AllocError> {
    command(alloc)?.error(ErrorKind::UnknownArgument, told)
}

/// The fault of words that ask for nothing.
fn no_command(alloc: Global) -> Result<Error, AllocError> {
    command(alloc)?.error(ErrorKind::MissingSubcommand, "no command")
}
