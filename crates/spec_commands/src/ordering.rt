//! Orders by names: the rank of an order, and the order of a rank.

ghost use Rattle.std.specs.Prelude.{◌≡◌, ◌<◌, IfErr, IfOk, length, map, string_bytes};
ghost use Rattle.transcripts.specs.Counted.{failures_of};
ghost use Rattle.order_names.specs.Orders.{name_of};
ghost use Rattle.spec_commands.specs.Ordering.{IsExplained, IsNamePlace, IsOrdered, IsRanked, NamesStep};

use bound_specs::Spec;
use order_names::{OrderError, order_text, rank_of};
use spec_binding::{SpecFault, spec_of};
use std::alloc::{AllocError, Global};
use std::io::Write;
use transcripts::{Counted, WriteFault, write_number};

/// Why an order's rank was not written. The first is tried before those below it, but for want of memory.
#[derive(Drop)]
pub enum RankFault {
    /// The bytes are no spec file.
    Spec(SpecFault),
    /// No step has the name at this place, from 0.
    UnknownStep(usize),
    /// The step at this place was sent before.
    Again(usize),
    /// Before the step at this place an earlier one of its session was not sent.
    OutOfTurn {
        /// The place, from 0.
        place: usize,
        /// The name of the step that is due.
        due: String,
    },
    /// The step of this name is left out.
    LeftOut(String),
    /// The spec has permutation lines, and the order is none of them.
    NoLine,
    /// Memory ran out.
    NoMemory,
    /// The number was not written; a front of it may be.
    Write(WriteFault),
}

/// Reads a spec, and writes the least rank of the order in which the steps of these names are sent.
pub fn rank<W: Write>(
    alloc: Global,
    bytes: &[u8],
    names: &[&str],
    out: &mut Counted<W>,
) -> Result<(), RankFault>
    requires { failures_of out.old < u64.MAX }
    ensures ranked { IsRanked W.contents out.old out.new bytes.now (map (λ p. p.now) names.now) result }
    ensures placed { IfErr result (IsNamePlace (length names.now)) }
{
    let spec = match spec_of(alloc, bytes) {
        Ok(spec) => spec,
        Err(fault) => return Err(RankFault::Spec(fault)),
    };
    let rank = match rank_of(alloc, &spec, names) {
        Ok(rank) => rank,
        Err(error) => return Err(explained(alloc, &spec, error)),
    };
    match write_number(rank, out) {
        Ok(()) => Ok(()),
        Err(fault) => Err(RankFault::Write(fault)),
    }
}

/// What is wrong with an order, with the names of steps.
pub(crate) fn explained(alloc: Global, spec: &Spec, error: OrderError) -> RankFault
    requires { NamesStep spec.now error }
    ensures { IsExplained spec.now error result }
{
    match error {
        OrderError::UnknownStep(place) => RankFault::UnknownStep(place),
        OrderError::Again(place) => RankFault::Again(place),
        OrderError::OutOfTurn { place, due } => match name_of(alloc, spec, due) {
            Ok(due) => RankFault::OutOfTurn { place, due },
            Err(_) => RankFault::NoMemory,
        },
        OrderError::LeftOut(due) => match name_of(alloc, spec, due) {
            Ok(due) => RankFault::LeftOut(due),
            Err(_) => RankFault::NoMemory,
        },
        OrderError::NoLine => RankFault::NoLine,
        OrderError::NoMemory => RankFault::NoMemory,
    }
}

/// The name of a step.
fn name_of(alloc: Global, spec: &Spec, step: u8) -> Result<String, AllocError>
    requires { step < length spec.now.run.steps }
    ensures { IfOk result (λ name. string_bytes name ≡ name_of spec.now step) }
{
    let mut name = String::new(alloc);
    name.push_str(spec.step_name(step))?;
    Ok(name)
}

/// Why an order was not written. Each is tried before those below it, but for want of memory.
#[derive(Clone, Copy, PartialEq, Eq)]
pub enum OrderFault {
    /// The bytes are no spec file.
    Spec(SpecFault),
    /// The spec has no permutation of this rank.
    OutOfRange,
    /// Memory ran out.
    NoMemory,
    /// The order was not written; a front of the text may be.
    Write(WriteFault),
}

/// Reads a spec, and writes the names of the steps of a rank, in the order in which they are sent.
pub fn order<W: Write>(
    alloc: Global,
    bytes: &[u8],
    rank: u64,
    out: &mut Counted<W>,
) -> Result<(), OrderFault>
    requires { failures_of out.old < u64.MAX }
    ensures { IsOrdered W.contents out.old out.new bytes.now rank result }
{
    let spec = match spec_of(alloc, bytes) {
        Ok(spec) => spec,
        Err(fault) => return Err(OrderFault::Spec(fault)),
    };
    let Some(line) = spec.line(rank) else {
        return Err(OrderFault::OutOfRange);
    };
    let Ok(text) = order_text(alloc, &spec, line.as_slice()) else {
        return Err(OrderFault::NoMemory);
    };
    match out.write_str(&text) {
        Ok(()) => Ok(()),
        Err(fault) => Err(OrderFault::Write(fault)),
    }
}
