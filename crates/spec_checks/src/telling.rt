//! The lines that tell of parts without effect.

ghost use Rattle.std.specs.Prelude.{◌≡◌, ◌++◌, OnOk, codes, flat_map, string_bytes};
ghost use Rattle.spec_texts.specs.Levels.{lines_from};
ghost use Rattle.spec_checks.specs.Idle.{idle_line, number};

use spec_texts::lines_at;
use std::alloc::{AllocError, Global};

/// Puts a line behind a text that tells the lines on which parts of a kind begin, if there are some.
pub(crate) fn push_line(
    alloc: Global,
    text: &[u8],
    words: &str,
    places: &[usize],
    told: &mut String,
) -> Result<(), AllocError>
    ensures { OnOk result (string_bytes told.new ≡ string_bytes told.old ++ idle_line text.now words.now places.now) }
{
    match places {
        [] => Ok(()),
        [_, ..] => push_whole_line(alloc, text, words, places, told),
    }
}

fn push_whole_line(
    alloc: Global,
    text: &[u8],
    words: &str,
    places: &[usize],
    told: &mut String,
) -> Result<(), AllocError>
    ensures { OnOk result (string_bytes told.new ≡ string_bytes told.old ++ (codes "no effect: " ++ (words.now ++ (codes ", lines" ++ (flat_map number (lines_from text.now 0 places.now) ++ codes "\n"))))) }
{
    told.push_str("no effect: ")?;
    told.push_str(words)?;
    told.push_str(", lines")?;
    push_numbers(alloc, text, places, told)?;
    told.push_str("\n")
}

fn push_numbers(
    alloc: Global,
    text: &[u8],
    places: &[usize],
    told: &mut String,
) -> Result<(), AllocError>
    ensures { OnOk result (string_bytes told.new ≡ string_bytes told.old ++ flat_map number (lines_from text.now 0 places.now)) }
{
    let lines = lines_at(alloc, text, places)?;
    push_all(alloc, &lines, told)
}

fn push_all(alloc: Global, lines: &[usize], told: &mut String) -> Result<(), AllocError>
    ensures { OnOk result (string_bytes told.new ≡ string_bytes told.old ++ flat_map number lines.now) }
{
    for line in lines {
        push_number(alloc, *line, told)?;
    }
    Ok(())
}

/// Puts the number of a line behind a text.
fn push_number(alloc: Global, line: usize, told: &mut String) -> Result<(), AllocError>
    ensures { OnOk result (string_bytes told.new ≡ string_bytes told.old ++ number line) }
{
    let number = format!(in alloc; " {line}")?;
    told.push_str(&number)
}
