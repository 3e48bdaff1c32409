//! The level that a spec file asks for.

ghost use Rattle.std.specs.Prelude.{◌≡◌, ◌++◌, [], IfOk, map};
ghost use Rattle.comment_lines.specs.Comments.{comment_lines, seen};
ghost use Rattle.spec_levels.specs.Asking.{asking_line, asking_lines, level_named, read_alone, read_first, read_level, seen_line};

use crate::words::level_named;
use bound_statements::Level;
use comment_lines::{Comment, behind_label, comment_lines};
use std::alloc::{AllocError, Global};

/// What is wrong with the levels of a spec file.
#[derive(Clone, Copy, PartialEq, Eq)]
pub enum LevelFaultKind {
    /// A line asks for a level that there is not.
    NoSuchLevel,
    /// A second line asks for a level.
    SecondLevel,
    /// A transaction begins at REPEATABLE READ where levels are asked for, and that one is not modelled.
    NotModelled,
}

/// What is wrong with the levels of a spec file, and on which line, from 1.
#[derive(Clone, Copy, PartialEq, Eq)]
pub struct LevelFault {
    pub kind: LevelFaultKind,
    pub line: usize,
}

/// A line that asks for a level.
#[derive(Clone, Copy, Drop)]
pub(crate) struct LevelLine<'a> {
    /// Where its comment begins.
    pub(crate) at: usize,
    pub(crate) word: &'a str,
}

/// The lines of a spec file that ask for a level.
pub(crate) fn asking_lines<'a>(
    alloc: Global,
    text: &'a str,
) -> Result<Vec<LevelLine<'a>>, AllocError>
    ensures { IfOk result (λ lines. map seen_line lines.items ≡ asking_lines (comment_lines text.entry.now)) }
{
    let comments = comment_lines(alloc, text)?;
    let mut lines = Vec::new(alloc);
    for comment in &comments {
        push_line(*comment, &mut lines)?;
    }
    Ok(lines)
}

fn push_line<'a>(comment: Comment<'a>, lines: &mut Vec<LevelLine<'a>>) -> Result<(), AllocError>
    ensures { IfOk result (λ _. map seen_line lines.new.items ≡ map seen_line lines.old.items ++ asking_line (seen comment.entry)) }
{
    if let Some(word) = behind_label("level:", comment.text) {
        lines.push(LevelLine {
            at: comment.at,
            word,
        })?;
    }
    Ok(())
}

/// The level that lines ask for, or which of them is wrong.
pub(crate) fn level_asked(lines: &[LevelLine<'_>]) -> Result<Option<Level>, WrongLine>
    ensures { result ≡ read_level (map seen_line lines.now) }
{
    match lines {
        [] => Ok(None),
        [line, others @ ..] => level_of_first(*line, others),
    }
}

/// A line that asks for no level that it may ask for.
#[derive(Clone, Copy)]
pub(crate) struct WrongLine {
    pub(crate) kind: LevelFaultKind,
    /// Where its comment begins.
    pub(crate) at: usize,
}

fn level_of_first(line: LevelLine<'_>, others: &[LevelLine<'_>]) -> Result<Option<Level>, WrongLine>
    ensures { result ≡ read_first (level_named line.entry.word.now) line.entry.at (map seen_line others.now) }
{
    match level_named(line.word) {
        None => Err(WrongLine {
            kind: LevelFaultKind::NoSuchLevel,
            at: line.at,
        }),
        Some(level) => alone(level, others),
    }
}

fn alone(level: Level, others: &[LevelLine<'_>]) -> Result<Option<Level>, WrongLine>
    ensures { result ≡ read_alone level (map seen_line others.now) }
{
    match others {
        [] => Ok(Some(level)),
        [second, ..] => Err(WrongLine {
            kind: LevelFaultKind::SecondLevel,
            at: second.at,
        }),
    }
}
