//! What the words that `clap` has found ask for.

use crate::names::{Name, name_of};
use crate::paths::Paths;
use crate::ranks::WantedRanks;
use crate::wanted::wanted_of;
use crate::words::Asked;
use bound_statements::Level;
use clap::ArgMatches;
use shard_board::Workers;
use spec_levels::level_named;
use std::alloc::{AllocError, Global};
use wanted_classes::{
    WantedClasses, WantedExpectation, WantedFilter, WantedForm, WantedLevels, WantedOutcomes,
    WantedSample, WantedTest,
};

/// What the words ask for, nothing where they name no command.
pub fn asked_of<'a>(
    alloc: Global,
    matches: &ArgMatches<'a>,
) -> Result<Option<Asked<'a>>, AllocError> {
    let Some((spelled, words)) = matches.subcommand() else {
        return Ok(None);
    };
    let Some(name) = name_of(spelled) else {
        return Ok(None);
    };
    match name {
        Name::Check => Ok(check_of_words(words)),
        Name::One => Ok(one_of_words(words)),
        Name::Count => Ok(count_of_words(words)),
        Name::Rank => rank_of_words(alloc, words),
        Name::Order => Ok(order_of_words(words)),
        Name::Show => show_of_words(alloc, words),
        Name::Classes => classes_of_words(alloc, words),
        Name::Run => Ok(run_of_words(words)),
        Name::Join => join_of_words(alloc, words),
        Name::Missing => missing_of_words(alloc, words),
        Name::Holds => Ok(holds_of_words(words)),
        Name::Report => Ok(report_of_words(words)),
        Name::Audit => Ok(audit_of_words(words)),
        Name::Judge => judge_of_words(alloc, words),
        Name::Test => test_of_words(alloc, words),
    }
}

fn check_of_words<'a>(words: &ArgMatches<'a>) -> Option<Asked<'a>> {
    let path = words.get_str("SPEC")?;
    Some(Asked::Check { path })
}

fn one_of_words<'a>(words: &ArgMatches<'a>) -> Option<Asked<'a>> {
    let path = words.get_str("SPEC")?;
    let rank = words.get_one::<u64>("RANK")?;
    Some(Asked::One { path, rank })
}

fn count_of_words<'a>(words: &ArgMatches<'a>) -> Option<Asked<'a>> {
    let path = words.get_str("SPEC")?;
    Some(Asked::Count { path })
}

fn rank_of_words<'a>(
    alloc: Global,
    words: &ArgMatches<'a>,
) -> Result<Option<Asked<'a>>, AllocError> {
    let Some(path) = words.get_str("SPEC") else {
        return Ok(None);
    };
    match words.get_strs("STEP") {
        Some(names) => Ok(Some(Asked::Rank {
            path,
            names: Vec::from_slice(alloc, names)?,
        })),
        None => Ok(None),
    }
}

fn order_of_words<'a>(words: &ArgMatches<'a>) -> Option<Asked<'a>> {
    let path = words.get_str("SPEC")?;
    let rank = words.get_one::<u64>("RANK")?;
    Some(Asked::Order { path, rank })
}

fn show_of_words<'a>(
    alloc: Global,
    words: &ArgMatches<'a>,
) -> Result<Option<Asked<'a>>, AllocError> {
    let Some(path) = words.get_str("SPEC") else {
        return Ok(None);
    };
    match words.get_strs("ORDER") {
        Some(order) => Ok(Some(Asked::Show {
            path,
            order: wanted_of(Vec::from_slice(alloc, order)?),
            json: words.get_flag("json"),
            level: level_of_words(words),
        })),
        None => Ok(None),
    }
}

/// The level that the words ask for.
fn level_of_words(words: &ArgMatches<'_>) -> Option<Level> {
    level_named(words.get_str("level")?)
}

fn classes_of_words<'a>(
    alloc: Global,
    words: &ArgMatches<'a>,
) -> Result<Option<Asked<'a>>, AllocError> {
    if let Some(books) = words.get_strs("book") {
        let books = Vec::from_slice(alloc, books)?;
        return Ok(outcomes_with(words, books));
    }
    if words.get_flag("levels") {
        return Ok(levels_with(words));
    }
    let filters = filters_of_words(alloc, words)?;
    let queries = queries_of_words(alloc, words)?;
    let expectations = expectations_of_words(alloc, words)?;
    Ok(classes_with(words, filters, queries, expectations))
}

fn outcomes_with<'a>(words: &ArgMatches<'a>, books: Vec<&'a str>) -> Option<Asked<'a>> {
    Some(Asked::Outcomes {
        paths: Paths::of(books)?,
        wanted: WantedOutcomes {
            brief: words.get_flag("brief"),
            ranks: words.get_flag("ranks"),
            outcomes: words.get_flag("outcomes"),
            json: words.get_flag("json"),
        },
    })
}

fn levels_with<'a>(words: &ArgMatches<'a>) -> Option<Asked<'a>> {
    let path = words.get_str("SPEC")?;
    Some(Asked::Levels {
        path,
        wanted: WantedLevels {
            brief: words.get_flag("brief"),
            outcomes: words.get_flag("outcomes"),
            final_rows: words.get_flag("final-rows"),
            memory: words.get_one::<u64>("memory")?,
        },
        progress: words.get_flag("progress"),
    })
}

fn classes_with<'a>(
    words: &ArgMatches<'a>,
    filters: Vec<WantedFilter<'a>>,
    queries: Vec<&'a str>,
    expectations: Vec<WantedExpectation<'a>>,
) -> Option<Asked<'a>> {
    let path = words.get_str("SPEC")?;
    Some(Asked::Classes {
        path,
        wanted: WantedClasses {
            all_orders: words.get_flag("all-orders"),
            sample: sample_of_words(words),
            by_result: words.get_flag("by-result"),
            filters,
            queries,
            expectations,
            brief: words.get_flag("brief"),
            outcomes: words.get_flag("outcomes"),
            final_rows: words.get_flag("final-rows"),
            form: form_of_words(words),
            level: level_of_words(words),
            memory: words.get_one::<u64>("memory")?,
        },
        progress: words.get_flag("progress"),
    })
}

fn sample_of_words(words: &ArgMatches<'_>) -> Option<WantedSample> {
    Some(WantedSample {
        orders: words.get_one::<u32>("sample")?,
        seed: words.get_one::<u64>("seed")?,
    })
}

fn form_of_words(words: &ArgMatches<'_>) -> WantedForm {
    if words.get_flag("html") {
        return WantedForm::Html;
    }
    if words.get_flag("json") {
        return WantedForm::Json;
    }
    WantedForm::Text
}

/// A test with the flag that asks for the orders that pass it, and the one that asks for the others.
#[derive(Clone, Copy, Drop)]
struct Flags {
    test: WantedTest<'static>,
    passing: &'static str,
    other: &'static str,
}

/// The flags that are told before those of deadlocks.
static WAITS: Flags = Flags {
    test: WantedTest::Waits,
    passing: "waits",
    other: "no-waits",
};

/// The flags that are told behind those of deadlocks.
static FLAGS: [Flags; 4] = [
    Flags {
        test: WantedTest::Error,
        passing: "error",
        other: "no-error",
    },
    Flags {
        test: WantedTest::Stuck,
        passing: "stuck",
        other: "no-stuck",
    },
    Flags {
        test: WantedTest::Anomaly,
        passing: "anomaly",
        other: "no-anomaly",
    },
    Flags {
        test: WantedTest::NotSent,
        passing: "not-sent",
        other: "no-not-sent",
    },
];

/// The filters that the words ask for, in the order of their letters.
fn filters_of_words<'a>(
    alloc: Global,
    words: &ArgMatches<'a>,
) -> Result<Vec<WantedFilter<'a>>, AllocError> {
    let mut filters = Vec::new(alloc);
    push_flags(words, &WAITS, &mut filters)?;
    push_victims(words, "deadlock", true, &mut filters)?;
    push_victims(words, "no-deadlock", false, &mut filters)?;
    for flags in &FLAGS {
        push_flags(words, flags, &mut filters)?;
    }
    Ok(filters)
}

fn push_flags<'a>(
    words: &ArgMatches<'a>,
    flags: &Flags,
    filters: &mut Vec<WantedFilter<'a>>,
) -> Result<(), AllocError> {
    push_flag(words, flags.passing, flags.test, true, filters)?;
    push_flag(words, flags.other, flags.test, false, filters)
}

fn push_flag<'a>(
    words: &ArgMatches<'a>,
    flag: &str,
    test: WantedTest<'a>,
    wanted: bool,
    filters: &mut Vec<WantedFilter<'a>>,
) -> Result<(), AllocError> {
    if words.get_flag(flag) {
        filters.push(WantedFilter { test, wanted })?;
    }
    Ok(())
}

/// A filter for each time that the flag stands there: by the session behind it, or by any.
fn push_victims<'a>(
    words: &ArgMatches<'a>,
    flag: &str,
    wanted: bool,
    filters: &mut Vec<WantedFilter<'a>>,
) -> Result<(), AllocError> {
    let Some(times) = words.get_raw_occurrences(flag) else {
        return Ok(());
    };
    for sessions in times {
        let test = match sessions {
            [session] => WantedTest::DeadlockOf(session),
            _ => WantedTest::Deadlock,
        };
        filters.push(WantedFilter { test, wanted })?;
    }
    Ok(())
}

fn queries_of_words<'a>(alloc: Global, words: &ArgMatches<'a>) -> Result<Vec<&'a str>, AllocError> {
    match words.get_strs("query") {
        Some(queries) => Vec::from_slice(alloc, queries),
        None => Ok(Vec::new(alloc)),
    }
}

fn expectations_of_words<'a>(
    alloc: Global,
    words: &ArgMatches<'a>,
) -> Result<Vec<WantedExpectation<'a>>, AllocError> {
    let mut expectations = Vec::new(alloc);
    let Some(times) = words.get_raw_occurrences("expect") else {
        return Ok(expectations);
    };
    for expected in times {
        if let [select, values @ ..] = expected {
            let values = Vec::from_slice(alloc, values)?;
            expectations.push(WantedExpectation { select, values })?;
        }
    }
    Ok(expectations)
}

fn run_of_words<'a>(words: &ArgMatches<'a>) -> Option<Asked<'a>> {
    let path = words.get_str("SPEC")?;
    let workers = Workers::of(words.get_one::<u8>("workers")?)?;
    Some(Asked::Run {
        path,
        ranks: ranks_of_words(words)?,
        every: words.get_flag("every"),
        workers,
        progress: words.get_flag("progress"),
    })
}

/// The ranks that the words name: all of them where there is no first one.
fn ranks_of_words(words: &ArgMatches<'_>) -> Option<WantedRanks> {
    let Some(first) = words.get_one::<u64>("FIRST") else {
        return Some(WantedRanks::All);
    };
    let end = words.get_one::<u64>("END")?;
    Some(WantedRanks::Range { first, end })
}

fn join_of_words<'a>(
    alloc: Global,
    words: &ArgMatches<'a>,
) -> Result<Option<Asked<'a>>, AllocError> {
    let Some(books) = words.get_strs("BOOK") else {
        return Ok(None);
    };
    let books = Vec::from_slice(alloc, books)?;
    match Paths::of(books) {
        Some(paths) => Ok(Some(Asked::Join { paths })),
        None => Ok(None),
    }
}

fn missing_of_words<'a>(
    alloc: Global,
    words: &ArgMatches<'a>,
) -> Result<Option<Asked<'a>>, AllocError> {
    let Some(books) = words.get_strs("BOOK") else {
        return Ok(None);
    };
    let books = Vec::from_slice(alloc, books)?;
    match Paths::of(books) {
        Some(paths) => Ok(Some(Asked::Missing {
            paths,
            lines: words.get_flag("lines"),
        })),
        None => Ok(None),
    }
}

fn holds_of_words<'a>(words: &ArgMatches<'a>) -> Option<Asked<'a>> {
    let path = words.get_str("BOOK")?;
    let spec = words.get_str("SPEC")?;
    let first = words.get_one::<u64>("FIRST")?;
    let end = words.get_one::<u64>("END")?;
    Some(Asked::Holds {
        path,
        spec,
        first,
        end,
    })
}

fn report_of_words<'a>(words: &ArgMatches<'a>) -> Option<Asked<'a>> {
    let path = words.get_str("BOOK")?;
    Some(Asked::Report { path })
}

fn audit_of_words<'a>(words: &ArgMatches<'a>) -> Option<Asked<'a>> {
    let path = words.get_str("BOOK")?;
    Some(Asked::Audit { path })
}

fn test_of_words<'a>(
    alloc: Global,
    words: &ArgMatches<'a>,
) -> Result<Option<Asked<'a>>, AllocError> {
    let Some(paths) = words.get_strs("PATH") else {
        return Ok(None);
    };
    let paths = Vec::from_slice(alloc, paths)?;
    Ok(test_with(words, paths))
}

fn test_with<'a>(words: &ArgMatches<'a>, paths: Vec<&'a str>) -> Option<Asked<'a>> {
    let paths = Paths::of(paths)?;
    let workers = Workers::of(words.get_one::<u8>("workers")?)?;
    Some(Asked::Test {
        paths,
        updates: words.get_flag("update"),
        junit: words.get_str("junit"),
        workers,
        level: level_of_words(words),
    })
}

fn judge_of_words<'a>(
    alloc: Global,
    words: &ArgMatches<'a>,
) -> Result<Option<Asked<'a>>, AllocError> {
    let Some(path) = words.get_str("BOOK") else {
        return Ok(None);
    };
    match words.get_strs("ACCEPTED") {
        Some(accepted) => Ok(Some(Asked::Judge {
            path,
            accepted: Vec::from_slice(alloc, accepted)?,
            show: words.get_flag("show"),
        })),
        None => Ok(None),
    }
}
