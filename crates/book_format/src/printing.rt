//! A book's text, piece by piece.

ghost use Rattle.std.specs.Prelude.{◌<◌, ◌++◌, codes, decimal, flat_map};
ghost use Rattle.std.specs.List.{join_by};
ghost use Rattle.transcripts.specs.Counted.{Prints, failures_of};
ghost use Rattle.compact_outcomes.specs.CompactTexts.{after_comma};
ghost use Rattle.book_format.specs.Pieces.{run_text, facts_text, parts_text, spec_text, table_text, text_in, told_text};

use crate::canonical::number;
use crate::lengths::{front, ranks_in};
use crate::pieces::Pieces;
use compact_outcomes::CompactOutcome;
use fact_books::Run;
use itoa::Buffer;
use std::io::Write;
use transcripts::{Counted, WriteFault};

/// Writes the text that the pieces make. It takes no memory. After a fault the writer has a front of the text.
pub(crate) fn print_book<W: Write>(
    pieces: &Pieces<'_>,
    out: &mut Counted<W>,
) -> Result<(), WriteFault>
    requires { failures_of out.old < u64.MAX }
    ensures { Prints W.contents out.old out.new result (text_in pieces.now) }
{
    print_parts(
        pieces.runs.as_slice(),
        pieces.outcomes.as_slice(),
        pieces.quoted.as_str(),
        out,
    )
}

/// Writes the text of runs, of outcomes and of a spec's text as a JSON string. It takes no memory.
pub(crate) fn print_parts<W: Write>(
    runs: &[Run],
    outcomes: &[CompactOutcome<'_>],
    quoted: &str,
    out: &mut Counted<W>,
) -> Result<(), WriteFault>
    requires { failures_of out.old < u64.MAX }
    ensures { Prints W.contents out.old out.new result (parts_text runs.now outcomes.now quoted.now) }
{
    print_facts(runs, out)?;
    print_outcomes(outcomes, out)?;
    print_spec(quoted, out)
}

fn print_facts<W: Write>(runs: &[Run], out: &mut Counted<W>) -> Result<(), WriteFault>
    requires { failures_of out.old < u64.MAX }
    ensures { Prints W.contents out.old out.new result (facts_text runs.now) }
{
    out.write_str("{\"facts\":[")?;
    print_runs(runs, out)
}

fn print_runs<W: Write>(runs: &[Run], out: &mut Counted<W>) -> Result<(), WriteFault>
    requires { failures_of out.old < u64.MAX }
    ensures { Prints W.contents out.old out.new result (join_by run_text (codes ",") runs.now) }
{
    match runs.split_first() {
        None => Ok(()),
        Some((first, others)) => {
            print_run(first, out)?;
            print_other_runs(others, out)
        }
    }
}

/// Each run after a comma.
fn print_other_runs<W: Write>(runs: &[Run], out: &mut Counted<W>) -> Result<(), WriteFault>
    requires { failures_of out.old < u64.MAX }
    ensures { Prints W.contents out.old out.new result (flat_map (after_comma run_text) runs.now) }
{
    for run in runs {
        out.write_str(",")?;
        print_run(run, out)?;
    }
    Ok(())
}

fn print_run<W: Write>(run: &Run, out: &mut Counted<W>) -> Result<(), WriteFault>
    requires { failures_of out.old < u64.MAX }
    ensures { Prints W.contents out.old out.new result (run_text run.now) }
{
    print_number("[", run.first, out)?;
    print_number(",", ranks_in(run), out)?;
    print_number(front(run.tag), number(run.tag) as u64, out)?;
    out.write_str("]")
}

fn print_number<W: Write>(before: &str, number: u64, out: &mut Counted<W>) -> Result<(), WriteFault>
    requires { failures_of out.old < u64.MAX }
    ensures { Prints W.contents out.old out.new result (before.now ++ decimal number) }
{
    print_pair(before, Buffer::new().format(number), out)
}

fn print_outcomes<W: Write>(
    outcomes: &[CompactOutcome<'_>],
    out: &mut Counted<W>,
) -> Result<(), WriteFault>
    requires { failures_of out.old < u64.MAX }
    ensures { Prints W.contents out.old out.new result (table_text outcomes.now) }
{
    out.write_str("],\"format\":2,\"outcomes\":[")?;
    print_texts(outcomes, out)
}

fn print_texts<W: Write>(
    outcomes: &[CompactOutcome<'_>],
    out: &mut Counted<W>,
) -> Result<(), WriteFault>
    requires { failures_of out.old < u64.MAX }
    ensures { Prints W.contents out.old out.new result (join_by told_text (codes ",") outcomes.now) }
{
    match outcomes.split_first() {
        None => Ok(()),
        Some((first, others)) => {
            print_text(first, out)?;
            print_other_texts(others, out)
        }
    }
}

/// Each text after a comma.
fn print_other_texts<W: Write>(
    outcomes: &[CompactOutcome<'_>],
    out: &mut Counted<W>,
) -> Result<(), WriteFault>
    requires { failures_of out.old < u64.MAX }
    ensures { Prints W.contents out.old out.new result (flat_map (after_comma told_text) outcomes.now) }
{
    for outcome in outcomes {
        out.write_str(",")?;
        print_text(outcome, out)?;
    }
    Ok(())
}

fn print_text<W: Write>(
    outcome: &CompactOutcome<'_>,
    out: &mut Counted<W>,
) -> Result<(), WriteFault>
    requires { failures_of out.old < u64.MAX }
    ensures { Prints W.contents out.old out.new result (told_text outcome.now) }
{
    out.write_all(outcome.as_bytes())
}

fn print_spec<W: Write>(quoted: &str, out: &mut Counted<W>) -> Result<(), WriteFault>
    requires { failures_of out.old < u64.MAX }
    ensures { Prints W.contents out.old out.new result (spec_text quoted.now) }
{
    print_pair("],\"spec\":", quoted, out)?;
    out.write_str("}\n")
}

fn print_pair<W: Write>(before: &str, text: &str, out: &mut Counted<W>) -> Result<(), WriteFault>
    requires { failures_of out.old < u64.MAX }
    ensures { Prints W.contents out.old out.new result (before.now ++ text.now) }
{
    out.write_str(before)?;
    out.write_str(text)
}
