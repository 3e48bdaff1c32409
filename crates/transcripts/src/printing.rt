ghost use Rattle.std.specs.Prelude.{◌≡◌, ◌++◌, ◌<◌, All, codes, decimal, flat_map, length};
ghost use Rattle.std.specs.List.{join_by};
ghost use Rattle.events.specs.Fits.{HasStep};
ghost use Rattle.transcripts.specs.Counted.{Prints, failures_of};
ghost use Rattle.transcripts.specs.Names.{HasNames};
ghost use Rattle.transcripts.specs.Text.{barred, doubled, event_line, event_text, fault_text, outcome_text, quoted, rank_text, row_text, session_text, value_text, warning_text};

use crate::Outcome;
use crate::counted::{Counted, WriteFault};
use crate::names::Names;
use events::{Event, Fault, Transcript, Warning};
use itoa::Buffer;
use lock_modes::{Text, Value};
use std::io::Write;

/// Writes the outcome: for each session in order a line with its name, and then each of its
/// events on a line of its own. It takes no memory.
///
/// There has to be a name for each session, and for each step that an event names. After a fault
/// the writer has a front of the text.
pub fn print<W: Write>(
    outcome: &Outcome,
    names: &Names<'_>,
    out: &mut Counted<W>,
) -> Result<(), WriteFault>
    requires named { HasNames names.now.sessions.now names.now.steps.now outcome.now }
    requires countable { failures_of out.old < u64.MAX }
    ensures { Prints W.contents out.old out.new result (outcome_text names.now.sessions.now names.now.steps.now outcome.now) }
{
    for (session, transcript) in outcome.sessions().iter().enumerate() {
        print_session(&names.sessions[session], transcript, names.steps, out)?;
    }
    Ok(())
}

/// Writes the line that tells the rank of the outcome below it.
pub fn print_rank<W: Write>(rank: u64, out: &mut Counted<W>) -> Result<(), WriteFault>
    requires { failures_of out.old < u64.MAX }
    ensures { Prints W.contents out.old out.new result (rank_text rank) }
{
    print_count("rank ", rank, out)?;
    out.write_str("\n")
}

fn print_session<W: Write>(
    name: &Text,
    transcript: &Transcript,
    steps: &[Text],
    out: &mut Counted<W>,
) -> Result<(), WriteFault>
    requires named { All (HasStep (length steps.now)) transcript.now }
    requires countable { failures_of out.old < u64.MAX }
    ensures { Prints W.contents out.old out.new result (session_text steps.now (name.now, transcript.now)) }
{
    print_pair("session ", name.as_str(), out)?;
    out.write_str("\n")?;
    for event in transcript.events() {
        print_event(event, steps, out)?;
    }
    Ok(())
}

fn print_event<W: Write>(
    event: &Event,
    steps: &[Text],
    out: &mut Counted<W>,
) -> Result<(), WriteFault>
    requires named { HasStep (length steps.now) event.now }
    requires countable { failures_of out.old < u64.MAX }
    ensures { Prints W.contents out.old out.new result (event_line steps.now event.now) }
{
    out.write_str("  ")?;
    print_words(event, steps, out)?;
    out.write_str("\n")
}

fn print_words<W: Write>(
    event: &Event,
    steps: &[Text],
    out: &mut Counted<W>,
) -> Result<(), WriteFault>
    requires named { HasStep (length steps.now) event.now }
    requires countable { failures_of out.old < u64.MAX }
    ensures { Prints W.contents out.old out.new result (event_text steps.now event.now) }
{
    match event {
        Event::Sent(step) => print_pair("step ", steps[*step as usize].as_str(), out),
        Event::Row(row) => print_row(row.values(), out),
        Event::Rows(count) => print_count("rows ", *count, out),
        Event::Inserted(count) => print_count("inserted ", *count, out),
        Event::Updated(count) => print_count("updated ", *count, out),
        Event::Deleted(count) => print_count("deleted ", *count, out),
        Event::Began => out.write_str("begun"),
        Event::Committed => out.write_str("committed"),
        Event::RolledBack => out.write_str("rolled back"),
        Event::Locked => out.write_str("locked"),
        Event::Set => out.write_str("set"),
        Event::Warned(warning) => out.write_str(warning_words(*warning)),
        Event::Failed(fault) => out.write_str(fault_words(*fault)),
        Event::Waiting => out.write_str("waiting"),
        Event::Resumed => out.write_str("resumed"),
        Event::Done => out.write_str("done"),
        Event::NotSent(step) => print_pair("not sent ", steps[*step as usize].as_str(), out),
    }
}

fn warning_words(warning: Warning) -> &'static str
    ensures { result.now ≡ warning_text warning }
{
    match warning {
        Warning::InBlock => "warning: already in a transaction block",
        Warning::NoBlock => "warning: no transaction block",
    }
}

fn fault_words(fault: Fault) -> &'static str
    ensures { result.now ≡ fault_text fault }
{
    match fault {
        Fault::Duplicate => "error: duplicate key",
        Fault::OutOfRange => "error: integer out of range",
        Fault::Deadlock => "error: deadlock",
        Fault::Aborted => "error: transaction is aborted",
        Fault::Unavailable => "error: lock not available",
    }
}

fn print_row<W: Write>(values: &[Value], out: &mut Counted<W>) -> Result<(), WriteFault>
    requires { failures_of out.old < u64.MAX }
    ensures { Prints W.contents out.old out.new result (row_text values.now) }
{
    out.write_str("row ")?;
    print_values(values, out)
}

fn print_values<W: Write>(values: &[Value], out: &mut Counted<W>) -> Result<(), WriteFault>
    requires { failures_of out.old < u64.MAX }
    ensures { Prints W.contents out.old out.new result (join_by value_text (codes "|") values.now) }
{
    match values.split_first() {
        None => Ok(()),
        Some((first, others)) => {
            print_value(first, out)?;
            print_others(others, out)
        }
    }
}

// Each value after a bar.
fn print_others<W: Write>(values: &[Value], out: &mut Counted<W>) -> Result<(), WriteFault>
    requires { failures_of out.old < u64.MAX }
    ensures { Prints W.contents out.old out.new result (flat_map barred values.now) }
{
    for value in values {
        out.write_str("|")?;
        print_value(value, out)?;
    }
    Ok(())
}

fn print_value<W: Write>(value: &Value, out: &mut Counted<W>) -> Result<(), WriteFault>
    requires { failures_of out.old < u64.MAX }
    ensures { Prints W.contents out.old out.new result (value_text value.now) }
{
    match value {
        Value::Int(number) => out.write_str(Buffer::new().format(*number)),
        Value::Text(text) => print_quoted(text.as_str(), out),
    }
}

// In single quotes, each quote in it doubled.
fn print_quoted<W: Write>(text: &str, out: &mut Counted<W>) -> Result<(), WriteFault>
    requires { failures_of out.old < u64.MAX }
    ensures { Prints W.contents out.old out.new result (quoted text.now) }
{
    out.write_str("'")?;
    for byte in text.as_bytes() {
        print_byte(*byte, out)?;
    }
    out.write_str("'")
}

fn print_byte<W: Write>(byte: u8, out: &mut Counted<W>) -> Result<(), WriteFault>
    requires { failures_of out.old < u64.MAX }
    ensures { Prints W.contents out.old out.new result (doubled byte) }
{
    if byte == b'\'' {
        out.write_str("''")
    } else {
        out.write_all(&[byte])
    }
}

fn print_count<W: Write>(label: &str, count: u64, out: &mut Counted<W>) -> Result<(), WriteFault>
    requires { failures_of out.old < u64.MAX }
    ensures { Prints W.contents out.old out.new result (label.now ++ decimal count) }
{
    print_pair(label, Buffer::new().format(count), out)
}

fn print_pair<W: Write>(label: &str, word: &str, out: &mut Counted<W>) -> Result<(), WriteFault>
    requires { failures_of out.old < u64.MAX }
    ensures { Prints W.contents out.old out.new result (label.now ++ word.now) }
{
    out.write_str(label)?;
    out.write_str(word)
}
