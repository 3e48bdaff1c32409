//! Flags of `classes` that have another name now.

/// A flag that has another name now, and the line that tells so.
#[derive(Clone, Copy, Drop)]
struct Renamed {
    flag: &'static str,
    told: &'static str,
}

static RENAMED: [Renamed; 7] = [
    Renamed {
        flag: "--answers",
        told: "'--answers' is '--by-result' now",
    },
    Renamed {
        flag: "--look",
        told: "'--look' is '--query' now",
    },
    Renamed {
        flag: "--left",
        told: "'--left' is '--final-rows' now",
    },
    Renamed {
        flag: "--no-serial",
        told: "'--no-serial' is '--anomaly' now",
    },
    Renamed {
        flag: "--serial",
        told: "'--serial' is '--no-anomaly' now",
    },
    Renamed {
        flag: "--unsent",
        told: "'--unsent' is '--not-sent' now",
    },
    Renamed {
        flag: "--no-unsent",
        told: "'--no-unsent' is '--no-not-sent' now",
    },
];

/// What is told of the first flag among the words of `classes` that has another name now, none where there is none. The first of the words is the
/// program's name.
pub(crate) fn renamed_in(words: &[String]) -> Option<&'static str> {
    match words {
        [_program, command, rest @ ..] if command.as_str() == "classes" => first_renamed(rest),
        _ => None,
    }
}

/// The same of the words behind a command. Behind `--` there are no flags.
fn first_renamed(words: &[String]) -> Option<&'static str> {
    for word in words {
        if word.as_str() == "--" {
            return None;
        }
        if let Some(told) = told_of(flag_of(word.as_str())) {
            return Some(told);
        }
    }
    None
}

/// What is told of a flag.
fn told_of(flag: &str) -> Option<&'static str> {
    for renamed in &RENAMED {
        if renamed.flag == flag {
            return Some(renamed.told);
        }
    }
    None
}

/// A word without its value, where it is a flag with one behind `=`.
fn flag_of(word: &str) -> &str {
    match word.split_once('=') {
        Some((flag, _value)) => flag,
        None => word,
    }
}
