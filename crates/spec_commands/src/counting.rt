//! How much a spec has, from its bytes to the text.

ghost use Rattle.std.specs.Prelude.{◌≡◌, ◌<◌, length};
ghost use Rattle.bound_specs.specs.Spec.{ranks};
ghost use Rattle.transcripts.specs.Counted.{Prints, failures_of};
ghost use Rattle.spec_commands.specs.Counting.{IsChecked, IsCounted, counts_lines};

use bound_specs::Spec;
use spec_binding::{SpecFault, spec_of};
use std::alloc::Global;
use std::io::Write;
use transcripts::{Counted, WriteFault, write_count, write_number};

/// Why it was not written how much a spec has. The first is tried before the second.
#[derive(Clone, Copy, PartialEq, Eq)]
pub enum CountFault {
    /// The bytes are no spec file.
    Spec(SpecFault),
    /// The number was not written; a front of it may be.
    Write(WriteFault),
}

/// Reads a spec, and writes how many permutations it has.
pub fn count<W: Write>(alloc: Global, bytes: &[u8], out: &mut Counted<W>) -> Result<(), CountFault>
    requires { failures_of out.old < u64.MAX }
    ensures { IsCounted W.contents out.old out.new bytes.now result }
{
    let ranks = match spec_of(alloc, bytes) {
        Ok(spec) => spec.ranks(),
        Err(fault) => return Err(CountFault::Spec(fault)),
    };
    match write_number(ranks, out) {
        Ok(()) => Ok(()),
        Err(fault) => Err(CountFault::Write(fault)),
    }
}

/// Reads a spec, and writes how many sessions, steps and permutations it has.
pub fn check<W: Write>(alloc: Global, bytes: &[u8], out: &mut Counted<W>) -> Result<(), CountFault>
    requires { failures_of out.old < u64.MAX }
    ensures { IsChecked W.contents out.old out.new bytes.now result }
{
    let counts = match spec_of(alloc, bytes) {
        Ok(spec) => counts_of(&spec),
        Err(fault) => return Err(CountFault::Spec(fault)),
    };
    match write_counts(counts, out) {
        Ok(()) => Ok(()),
        Err(fault) => Err(CountFault::Write(fault)),
    }
}

/// How many sessions, steps and permutations a spec has.
#[derive(Clone, Copy)]
pub(crate) struct Counts {
    sessions: u64,
    steps: u64,
    ranks: u64,
}

fn counts_of(spec: &Spec) -> Counts
    ensures sessions { result.sessions ≡ spec.now.run.sessions }
    ensures steps { result.steps ≡ length spec.now.run.steps }
    ensures ranks { result.ranks ≡ ranks spec.now.run }
{
    Counts {
        sessions: u64::from(spec.sessions()),
        steps: u64::from(spec.steps()),
        ranks: spec.ranks(),
    }
}

/// Writes each number behind its word, on a line of its own.
fn write_counts<W: Write>(counts: Counts, out: &mut Counted<W>) -> Result<(), WriteFault>
    requires { failures_of out.old < u64.MAX }
    ensures { Prints W.contents out.old out.new result (counts_lines counts.sessions counts.steps counts.ranks) }
{
    write_count("sessions ", counts.sessions, out)?;
    write_count("steps ", counts.steps, out)?;
    write_count("ranks ", counts.ranks, out)
}
