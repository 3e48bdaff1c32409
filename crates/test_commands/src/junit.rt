//! What is found of specs as a report in the form of JUnit.

use itoa::Buffer;
use std::alloc::{AllocError, Global};

/// How a test ended.
#[derive(Clone, Copy, PartialEq, Eq)]
pub enum Ending {
    /// Nothing is amiss.
    Passed,
    /// Something is.
    Failed,
    /// There was no test.
    Refused,
}

/// A test, with what is told of it.
#[derive(Drop)]
pub struct Case {
    pub name: String,
    pub ending: Ending,
    pub told: String,
}

/// What stands in the place of a character that XML has not.
const NO_CHARACTER: char = '\u{fffd}';

/// The report: one suite, with a case for each test in order. Of one that failed, or was refused, the first line of what is told is the message.
pub fn junit_text(alloc: Global, cases: &[Case]) -> Result<String, AllocError> {
    let mut text = String::new(alloc);
    text.push_str("<?xml version=\"1.0\" encoding=\"UTF-8\"?>\n<testsuites")?;
    push_counts(cases, &mut text)?;
    text.push_str(">\n<testsuite name=\"isofarm\"")?;
    push_counts(cases, &mut text)?;
    text.push_str(">\n")?;
    for case in cases {
        push_case(case, &mut text)?;
    }
    text.push_str("</testsuite>\n</testsuites>\n")?;
    Ok(text)
}

fn push_counts(cases: &[Case], text: &mut String) -> Result<(), AllocError> {
    push_count(" tests", cases.len(), text)?;
    push_count(" failures", ended(cases, Ending::Failed), text)?;
    push_count(" errors", ended(cases, Ending::Refused), text)
}

/// How many of the cases ended so.
fn ended(cases: &[Case], ending: Ending) -> usize {
    cases.iter().filter(|case| case.ending == ending).count()
}

fn push_count(name: &str, count: usize, text: &mut String) -> Result<(), AllocError> {
    text.push_str(name)?;
    text.push_str("=\"")?;
    text.push_str(Buffer::new().format(count))?;
    text.push_str("\"")
}

fn push_case(case: &Case, text: &mut String) -> Result<(), AllocError> {
    text.push_str("<testcase classname=\"isofarm\" name=\"")?;
    push_escaped(&case.name, text)?;
    match case.ending {
        Ending::Passed => text.push_str("\"/>\n"),
        Ending::Failed => push_told("failure", &case.told, text),
        Ending::Refused => push_told("error", &case.told, text),
    }
}

/// What is told of a case: the first line as the message, and all of it.
fn push_told(element: &str, told: &str, text: &mut String) -> Result<(), AllocError> {
    let message = match told.split_once("\n") {
        Some((line, _behind)) => line,
        None => told,
    };
    text.push_str("\"><")?;
    text.push_str(element)?;
    text.push_str(" message=\"")?;
    push_escaped(message, text)?;
    text.push_str("\">")?;
    push_escaped(told, text)?;
    text.push_str("</")?;
    text.push_str(element)?;
    text.push_str("></testcase>\n")
}

/// A text as XML has it, in an attribute or between two tags.
fn push_escaped(some: &str, text: &mut String) -> Result<(), AllocError> {
    for character in some.chars() {
        match character {
            '&' => text.push_str("&amp;")?,
            '<' => text.push_str("&lt;")?,
            '>' => text.push_str("&gt;")?,
            '"' => text.push_str("&quot;")?,
            '\t' => text.push_str("&#9;")?,
            '\n' => text.push_str("&#10;")?,
            '\r' => text.push_str("&#13;")?,
            '\0'..='\u{1f}' | '\u{fffe}' | '\u{ffff}' => text.push(NO_CHARACTER)?,
            other => text.push(other)?,
        }
    }
    Ok(())
}
