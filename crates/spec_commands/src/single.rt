//! One permutation, from the bytes of a spec to the text of its outcome.

ghost use Rattle.std.specs.Prelude.{◌≡◌, ◌<◌, ◌+◌, ◌++◌, ℕ, List, OnOk, IfErr};
ghost use Rattle.machine_model.specs.Outcome.{IsOutcomeOf};
ghost use Rattle.transcripts.specs.Counted.{Wrote, Prints, failures_of};
ghost use Rattle.transcripts.specs.Text.{rank_text, outcome_text};
ghost use Rattle.spec_commands.specs.One.{IsAnswer, IsAnswerOf, IsRefused, IsRefusedOf, Leaves, faults_of};

use bound_specs::Spec;
use session_machine::{RunError, run_one};
use spec_binding::{SpecFault, spec_of};
use std::alloc::Global;
use std::io::Write;
use transcripts::{Counted, Names, Outcome, WriteFault, print, print_rank};

/// Why one permutation was not written. Each is tried before those below it, but for want of memory.
#[derive(Clone, Copy, PartialEq, Eq)]
pub enum OneFault {
    /// The bytes are no spec file.
    Spec(SpecFault),
    /// The spec has no permutation of this rank.
    OutOfRange,
    /// The line was not run: the spec does not start, or memory ran out.
    Run(RunError),
    /// The outcome was not written; a front of the text may be.
    Write(WriteFault),
}

/// Reads a spec, and writes the rank and the outcome of its line.
pub fn one<W: Write>(
    alloc: Global,
    bytes: &[u8],
    rank: u64,
    out: &mut Counted<W>,
) -> Result<(), OneFault>
    requires { failures_of out.old < u64.MAX }
    ensures written { OnOk result ((text : List ℕ) × IsAnswerOf bytes.now rank text × Wrote W.contents out.old out.new text) }
    ensures refused { IfErr result (λ error. IsRefusedOf error bytes.now rank) }
    ensures left { IfErr result (Leaves W.contents (IsAnswerOf bytes.now rank) out.old out.new) }
    ensures failures { failures_of out.new ≡ failures_of out.old + faults_of result }
{
    match spec_of(alloc, bytes) {
        Ok(spec) => one_of(alloc, &spec, rank, out),
        Err(fault) => Err(OneFault::Spec(fault)),
    }
}

/// Writes the rank and the outcome of its line.
pub fn one_of<W: Write>(
    alloc: Global,
    spec: &Spec,
    rank: u64,
    out: &mut Counted<W>,
) -> Result<(), OneFault>
    requires { failures_of out.old < u64.MAX }
    ensures written { OnOk result ((text : List ℕ) × IsAnswer spec.now rank text × Wrote W.contents out.old out.new text) }
    ensures refused { IfErr result (λ error. IsRefused error spec.now rank) }
    ensures left { IfErr result (Leaves W.contents (IsAnswer spec.now rank) out.old out.new) }
    ensures failures { failures_of out.new ≡ failures_of out.old + faults_of result }
{
    let Some(line) = spec.line(rank) else {
        return Err(OneFault::OutOfRange);
    };
    let outcome = match run_one(alloc, spec, &line) {
        Ok(outcome) => outcome,
        Err(error) => return Err(OneFault::Run(error)),
    };
    match write_one(spec, rank, &outcome, out) {
        Ok(()) => Ok(()),
        Err(fault) => Err(OneFault::Write(fault)),
    }
}

/// Writes the rank and an outcome of the spec. Where a write fails, a front of the text may be written.
fn write_one<W: Write>(
    spec: &Spec,
    rank: u64,
    outcome: &Outcome,
    out: &mut Counted<W>,
) -> Result<(), WriteFault>
    requires countable { failures_of out.old < u64.MAX }
    requires own { IsOutcomeOf spec.now.run outcome.now }
    ensures { Prints W.contents out.old out.new result (rank_text rank ++ outcome_text spec.now.session_names spec.now.step_names outcome.now) }
{
    print_rank(rank, out)?;
    write_outcome(spec, outcome, out)
}

/// Writes an outcome of the spec. Where a write fails, a front of the text may be written.
pub fn write_outcome<W: Write>(
    spec: &Spec,
    outcome: &Outcome,
    out: &mut Counted<W>,
) -> Result<(), WriteFault>
    requires own { IsOutcomeOf spec.now.run outcome.now }
    requires countable { failures_of out.old < u64.MAX }
    ensures { Prints W.contents out.old out.new result (outcome_text spec.now.session_names spec.now.step_names outcome.now) }
{
    let names = Names {
        sessions: spec.session_names(),
        steps: spec.step_names(),
    };
    print(outcome, &names, out)
}
