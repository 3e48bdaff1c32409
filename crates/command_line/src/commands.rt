//! The commands of the command line, each with its words.

use crate::arguments::{
    ACCEPTED, ALL_ORDERS, ANOMALY, BOOK, BOOKS, BRIEF, BY_RESULT, DEADLOCK, END, END_OF_ALL, ERROR,
    EVERY, EXPECT, FINAL_ROWS, FIRST, FIRST_OF_ALL, HTML, JSON, JUNIT, LEVEL, LEVELS, LINES,
    MEMORY, NAMES, NO_ANOMALY, NO_DEADLOCK, NO_ERROR, NO_NOT_SENT, NO_STUCK, NO_WAITS, NOT_SENT,
    OF_BOOKS, ORDER, OUTCOMES, PROGRESS, QUERY, RANK, RANKS, SAMPLE, SEED, SHOW, SPEC,
    SPEC_OR_BOOKS, SPECS, STUCK, UPDATE, WAITS, WORKERS, Word, arg_of,
};
use clap::Command;
use std::alloc::{AllocError, Global};

/// What the program is called in its texts, however it was started.
const PROGRAM: &str = "isofarm";

/// The version of the program. From which commit and with which kit it was built is known to what builds it alone.
const VERSION: &str = "0.1.0";

/// A command as the command line has it: how it is spelled, what it does, and its words in their order.
#[derive(Clone, Copy, Drop)]
struct Row {
    spelled: &'static str,
    about: &'static str,
    words: &'static [Word],
}

static COMMANDS: [Row; 15] = [
    Row {
        spelled: "check",
        about: "Prints how much a spec has, or where it is wrong and why",
        words: &[SPEC],
    },
    Row {
        spelled: "one",
        about: "Runs one permutation and prints what each session saw",
        words: &[SPEC, RANK],
    },
    Row {
        spelled: "count",
        about: "Prints how many permutations a spec has",
        words: &[SPEC],
    },
    Row {
        spelled: "rank",
        about: "Prints the number of the permutation with these steps",
        words: &[SPEC, NAMES],
    },
    Row {
        spelled: "order",
        about: "Prints the steps of a permutation",
        words: &[SPEC, RANK],
    },
    Row {
        spelled: "show",
        about: "Prints what happens in one order, moment by moment, and why",
        words: &[SPEC, ORDER, JSON, LEVEL],
    },
    Row {
        spelled: "classes",
        about: "Run all orders and group those that no client can tell apart",
        words: &[
            SPEC_OR_BOOKS,
            ALL_ORDERS,
            LEVEL,
            LEVELS,
            OF_BOOKS,
            WAITS,
            NO_WAITS,
            DEADLOCK,
            NO_DEADLOCK,
            ERROR,
            NO_ERROR,
            STUCK,
            NO_STUCK,
            ANOMALY,
            NO_ANOMALY,
            NOT_SENT,
            NO_NOT_SENT,
            BY_RESULT,
            EXPECT,
            QUERY,
            FINAL_ROWS,
            OUTCOMES,
            RANKS,
            BRIEF,
            JSON,
            HTML,
            PROGRESS,
            MEMORY,
            SAMPLE,
            SEED,
        ],
    },
    Row {
        spelled: "run",
        about: "Runs all permutations, or a range of them, and prints the book of what they show",
        words: &[SPEC, FIRST_OF_ALL, END_OF_ALL, EVERY, WORKERS, PROGRESS],
    },
    Row {
        spelled: "join",
        about: "Prints one book with the facts of all",
        words: &[BOOKS],
    },
    Row {
        spelled: "missing",
        about: "Prints the numbers of the permutations of which books tell nothing",
        words: &[BOOKS, LINES],
    },
    Row {
        spelled: "holds",
        about: "Prints whether a book is of a spec and has a fact of each permutation of a range",
        words: &[BOOK, SPEC, FIRST, END],
    },
    Row {
        spelled: "report",
        about: "Prints what each session saw in each permutation",
        words: &[BOOK],
    },
    Row {
        spelled: "audit",
        about: "Tests each fact of a book again, and prints the first permutation with a false one",
        words: &[BOOK],
    },
    Row {
        spelled: "judge",
        about: "Prints which accepted book tells the same, or where each differs first",
        words: &[BOOK, ACCEPTED, SHOW],
    },
    Row {
        spelled: "test",
        about: "Prints whether the classes of specs are as accepted, or how they differ",
        words: &[SPECS, UPDATE, JUNIT, WORKERS, LEVEL],
    },
];

/// The commands and their words.
pub fn command<'a>(alloc: Global) -> Result<Command<'a>, AllocError> {
    let mut command = Command::new(alloc, PROGRAM)
        .bin_name(PROGRAM)?
        .about("Runs the steps of SQL sessions in their orders, under two-phase locking")
        .version(VERSION)
        .subcommand_required(true);
    for row in &COMMANDS {
        command = with(command, command_of(alloc, row))?;
    }
    Ok(command)
}

/// The command with one more below it.
fn with<'a>(
    command: Command<'a>,
    below: Result<Command<'a>, AllocError>,
) -> Result<Command<'a>, AllocError> {
    match below {
        Ok(below) => command.subcommand(below),
        Err(error) => Err(error),
    }
}

/// The command of a row.
fn command_of<'a>(alloc: Global, row: &'static Row) -> Result<Command<'a>, AllocError> {
    let mut command = Command::new(alloc, row.spelled).about(row.about);
    for word in row.words {
        command = command.arg(arg_of(alloc, word)?)?;
    }
    Ok(command)
}
