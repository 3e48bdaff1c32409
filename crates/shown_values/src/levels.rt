//! The level that is asked for, and the lines of the file with another one.

ghost use Rattle.std.specs.Prelude.{◌≡◌, ◌++◌, OnOk, decimal};
ghost use Rattle.shown_values.specs.Levels as spec;
ghost use Rattle.shown_values.specs.Strings.{array_json};

use crate::strings::{push, push_before, push_word};
use bound_statements::Level;
use itoa::Buffer;
use spec_levels::Levels;
use std::alloc::AllocError;

/// A level as a word.
pub fn level_word(level: Level) -> &'static str
    ensures { result.now ≡ spec.level_word level }
{
    match level {
        Level::Serializable => "serializable",
        Level::Committed => "read-committed",
    }
}

/// Pushes a label, and behind it these lines of a file.
pub fn push_line_numbers(label: &str, lines: &[usize], out: &mut Vec<u8>) -> Result<(), AllocError>
    ensures { OnOk result (out.new.items ≡ out.old.items ++ (label.now ++ array_json decimal lines.now)) }
{
    push_word(label, "[", out)?;
    for (place, line) in lines.iter().enumerate() {
        push_before(",", place, out)?;
        push(Buffer::new().format(*line), out)?;
    }
    push("]", out)
}

fn push_asked(level: Level, lines: &[usize], out: &mut Vec<u8>) -> Result<(), AllocError>
    ensures { OnOk result (out.new.items ≡ out.old.items ++ spec.asked_json level lines.now) }
{
    push_word(",\"levels\":{\"default\":\"", level_word(level), out)?;
    push_line_numbers("\",\"other_lines\":", lines, out)?;
    push("}", out)
}

/// Pushes the level that is asked for, with the lines of the file that have another one; nothing where none is asked for.
pub fn push_levels(levels: &Levels, out: &mut Vec<u8>) -> Result<(), AllocError>
    ensures { OnOk result (out.new.items ≡ out.old.items ++ spec.levels_json levels.now.asked levels.now.other_lines.items) }
{
    match levels.asked {
        None => Ok(()),
        Some(level) => push_asked(level, levels.other_lines.as_slice(), out),
    }
}
