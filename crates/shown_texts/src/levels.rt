//! What is said of isolation levels: under which one all stands, or that they have no effect.

ghost use Rattle.std.specs.Prelude.{◌≡◌, ◌++◌, IfOk, OnOk, Some, flat_map};
ghost use Rattle.shown_texts.specs.Levels as spec;

use crate::characters::{put, put_size};
use bound_statements::Level;
use spec_levels::Levels;
use sqlite_items::Items;
use std::alloc::{AllocError, Global};

fn put_others(line: &mut Items<char>, numbers: &[usize]) -> Result<(), AllocError>
    ensures { OnOk result (line.new ≡ line.old ++ flat_map spec.behind_comma numbers.now) }
{
    for number in numbers {
        put(line, ", ")?;
        put_size(line, *number)?;
    }
    Ok(())
}

fn put_numbers(line: &mut Items<char>, number: usize, others: &[usize]) -> Result<(), AllocError>
    ensures { OnOk result (line.new ≡ line.old ++ spec.numbers_text number others.now) }
{
    put_size(line, number)?;
    put_others(line, others)
}

fn one_level(alloc: Global, number: usize) -> Result<Items<char>, AllocError>
    ensures { IfOk result (λ line. line ≡ spec.one_level number) }
{
    let mut line = Items::new(alloc);
    put(
        &mut line,
        "locking: strict two-phase locking; isolation level (line ",
    )?;
    put_size(&mut line, number)?;
    put(&mut line, ") has no effect")?;
    Ok(line)
}

fn several_levels(alloc: Global, number: usize, others: &[usize]) -> Result<Items<char>, AllocError>
    ensures { IfOk result (λ line. line ≡ spec.several_levels number others.now) }
{
    let mut line = Items::new(alloc);
    put(
        &mut line,
        "locking: strict two-phase locking; isolation levels (lines ",
    )?;
    put_numbers(&mut line, number, others)?;
    put(&mut line, ") have no effect")?;
    Ok(line)
}

/// That the levels on these lines of a file have no effect, on one line: none where there are none.
fn no_effect(alloc: Global, numbers: &[usize]) -> Result<Items<Items<char>>, AllocError>
    ensures { IfOk result (λ lines. lines ≡ spec.no_effect numbers.now) }
{
    let mut lines = Items::new(alloc);
    match numbers {
        [] => {}
        [number] => lines.push(one_level(alloc, *number)?)?,
        [number, others @ ..] => lines.push(several_levels(alloc, *number, others)?)?,
    }
    Ok(lines)
}

/// A level as SQL has it.
fn level_name(level: Level) -> &'static str
    ensures { result.now ≡ spec.level_name level }
{
    match level {
        Level::Serializable => "SERIALIZABLE",
        Level::Committed => "READ COMMITTED",
    }
}

/// The one of the two that is not asked for.
fn other_level(level: Level) -> Level
    ensures { result ≡ spec.other_level level }
{
    match level {
        Level::Serializable => Level::Committed,
        Level::Committed => Level::Serializable,
    }
}

fn put_one_line(line: &mut Items<char>, number: usize) -> Result<(), AllocError>
    ensures { OnOk result (line.new ≡ line.old ++ spec.one_line number) }
{
    put(line, " (line ")?;
    put_size(line, number)?;
    put(line, ")")
}

fn put_several_lines(
    line: &mut Items<char>,
    number: usize,
    others: &[usize],
) -> Result<(), AllocError>
    ensures { OnOk result (line.new ≡ line.old ++ spec.several_lines number others.now) }
{
    put(line, " (lines ")?;
    put_numbers(line, number, others)?;
    put(line, ")")
}

/// Puts a level behind a semicolon.
fn put_level(line: &mut Items<char>, level: Level) -> Result<(), AllocError>
    ensures { OnOk result (line.new ≡ line.old ++ spec.behind_semicolon level) }
{
    put(line, "; ")?;
    put(line, level_name(level))
}

/// Puts a level, and the lines of the file that have it, behind a line: nothing where there are none.
fn put_other(line: &mut Items<char>, level: Level, numbers: &[usize]) -> Result<(), AllocError>
    ensures { OnOk result (line.new ≡ line.old ++ spec.other_text level numbers.now) }
{
    match numbers {
        [] => Ok(()),
        [number] => {
            put_level(line, level)?;
            put_one_line(line, *number)
        }
        [number, others @ ..] => {
            put_level(line, level)?;
            put_several_lines(line, *number, others)
        }
    }
}

/// Under which level all stands, and the lines of the file with the other one.
fn asked_text(alloc: Global, level: Level, numbers: &[usize]) -> Result<Items<char>, AllocError>
    ensures { IfOk result (λ line. line ≡ spec.asked_text level numbers.now) }
{
    let mut line = Items::new(alloc);
    put(&mut line, "isolation level: ")?;
    put(&mut line, level_name(level))?;
    put_other(&mut line, other_level(level), numbers)?;
    Ok(line)
}

fn asked_line(
    alloc: Global,
    level: Level,
    numbers: &[usize],
) -> Result<Items<Items<char>>, AllocError>
    ensures { IfOk result (λ lines. lines ≡ spec.level_text (Some level) numbers.now) }
{
    let mut lines = Items::new(alloc);
    lines.push(asked_text(alloc, level, numbers)?)?;
    Ok(lines)
}

/// Under which level all stands, or that levels have no effect, on one line: none where no level is asked for and the file has none. It fails for
/// want of memory alone.
pub fn level_text(alloc: Global, levels: &Levels) -> Result<Items<Items<char>>, AllocError>
    ensures { IfOk result (λ lines. lines ≡ spec.level_text levels.now.asked levels.now.other_lines.items) }
{
    match levels.asked {
        None => no_effect(alloc, levels.other_lines.as_slice()),
        Some(level) => asked_line(alloc, level, levels.other_lines.as_slice()),
    }
}
