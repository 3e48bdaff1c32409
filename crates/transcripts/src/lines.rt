//! Lines that end with a number.

ghost use Rattle.std.specs.Prelude.{◌<◌, ◌++◌};
ghost use Rattle.transcripts.specs.Counted.{Prints, failures_of};
ghost use Rattle.transcripts.specs.Lines.{number_line};

use crate::{Counted, WriteFault};
use itoa::Buffer;
use std::io::Write;

/// Writes a number behind its word, on a line of its own. Where a write fails, a front of the line may be written.
pub fn write_count<W: Write>(
    word: &str,
    number: u64,
    out: &mut Counted<W>,
) -> Result<(), WriteFault>
    requires { failures_of out.old < u64.MAX }
    ensures { Prints W.contents out.old out.new result (word.now ++ number_line number) }
{
    out.write_str(word)?;
    write_number(number, out)
}

/// Writes a number on a line of its own. Where a write fails, a front of the line may be written.
pub fn write_number<W: Write>(number: u64, out: &mut Counted<W>) -> Result<(), WriteFault>
    requires { failures_of out.old < u64.MAX }
    ensures { Prints W.contents out.old out.new result (number_line number) }
{
    out.write_str(Buffer::new().format(number))?;
    out.write_str("\n")
}
