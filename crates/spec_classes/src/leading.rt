//! The steps of the order of a rank.

ghost use Rattle.std.specs.Prelude.{◌≡◌, ◌≢◌, ◌<◌, ◌++◌, ℕ, false, [], ◌∷◌, All, List, get_or, length, IfOk, OnOk};
ghost use Rattle.bound_specs.specs.Spec.{ranks as count_of};
ghost use Rattle.spec_schedules.specs.declared.kind.Kind.TheVariants.{Permutations, Schedules};
ghost use Rattle.spec_schedules.specs.Ranked.{IsOrderAt};
ghost use Rattle.spec_classes.specs.Classes.{drawn};
ghost use Rattle.spec_classes.specs.Leading.{led};
ghost use Rattle.spec_classes.specs.Meant.{AreMeant, run_by};
ghost use Rattle.spec_classes.specs.Showing.{AreSteps, IsAtStart};

use crate::orders::Orders;
use bound_specs::{Line, Spec};
use marked_worlds::MarkedWorld;
use session_steps::SendError;
use spec_schedules::{Kind, permutations_are_ranked};

/// The order of a rank: among drawn ranks, that of the rank at this place.
pub(crate) fn order_at(
    world: &mut MarkedWorld<'_>,
    spec: &Spec,
    orders: Orders<'_>,
    rank: u64,
) -> Result<Line, SendError>
    requires at { IsAtStart spec.now world.old }
    requires meant { AreMeant spec.now.run orders }
    requires some { (ks : List ℕ) × IsOrderAt orders.kind (run_by spec.now.run orders) rank ks }
    ensures order { IfOk result (λ line. IsOrderAt orders.entry.kind (run_by spec.now.run orders.entry) rank line.items) }
    ensures back { OnOk result (IsAtStart spec.now world.new) }
{
    match orders.ranks {
        Some(ranks) => Ok(drawn_line(spec, orders.kind, ranks, rank)),
        None => word_order(world, spec, orders.kind, rank),
    }
}

/// The order of the rank at a place.
fn drawn_line(spec: &Spec, kind: Kind, ranks: &[u64], place: u64) -> Line
    requires ranks { ranks.now ≢ [] }
    requires inside { All (λ r. r < count_of spec.now.run) ranks.now }
    requires some { (ks : List ℕ) × IsOrderAt kind (drawn spec.now.run ranks.now) place ks }
    ensures { IsOrderAt kind (drawn spec.now.run ranks.now) place result.items }
{
    let Some(line) = spec.line(rank_at(ranks, place)) else {
        unreachable!()
    };
    line
}

fn rank_at(ranks: &[u64], place: u64) -> u64
    requires { place < length ranks.now }
    ensures { result ≡ get_or ranks.now place 0 }
{
    ranks[place as usize]
}

/// The order of a rank of a spec without permutation lines.
fn word_order(
    world: &mut MarkedWorld<'_>,
    spec: &Spec,
    kind: Kind,
    rank: u64,
) -> Result<Line, SendError>
    requires at { IsAtStart spec.now world.old }
    requires words { spec.now.run.lines ≡ [] }
    requires some { (ks : List ℕ) × IsOrderAt kind spec.now.run rank ks }
    ensures order { IfOk result (λ line. IsOrderAt kind spec.now.run rank line.items) }
    ensures back { OnOk result (IsAtStart spec.now world.new) }
{
    match kind {
        Kind::Permutations => Ok(permutation(spec, rank)),
        Kind::Schedules => schedule(world, spec, rank),
    }
}

/// The permutation of a rank.
fn permutation(spec: &Spec, rank: u64) -> Line
    requires words { spec.now.run.lines ≡ [] }
    requires some { (ks : List ℕ) × IsOrderAt Permutations spec.now.run rank ks }
    ensures { IsOrderAt Permutations spec.now.run rank result.items }
{
    permutations_are_ranked();
    let Some(line) = spec.line(rank) else {
        unreachable!()
    };
    line
}

/// The schedule of a rank: the permutation of that rank, without the steps that may not come where they do.
fn schedule(world: &mut MarkedWorld<'_>, spec: &Spec, rank: u64) -> Result<Line, SendError>
    requires at { IsAtStart spec.now world.old }
    requires words { spec.now.run.lines ≡ [] }
    requires some { (ks : List ℕ) × IsOrderAt Schedules spec.now.run rank ks }
    ensures order { IfOk result (λ line. IsOrderAt Schedules spec.now.run rank line.items) }
    ensures back { OnOk result (IsAtStart spec.now world.new) }
{
    permutations_are_ranked();
    let Some(line) = spec.line(rank) else {
        unreachable!()
    };
    world.mark()?;
    let led = led_by(world, spec, line.as_slice())?;
    world.go_back();
    Ok(led)
}

/// Sends the steps of a line that may come where they do, and tells which these are.
fn led_by(world: &mut MarkedWorld<'_>, spec: &Spec, line: &[u8]) -> Result<Line, SendError>
    requires at { IsAtStart spec.now world.old }
    requires known { AreSteps spec.now.run.steps line.now }
    ensures led { IfOk result (λ sent. sent.items ≡ led spec.now.run.steps world.old.world line.now) }
    ensures marked { world.new.marked ≡ world.old.marked }
    ensures of_spec { world.new.file ≡ world.old.file }
{
    let mut sent = Line::new();
    for step in line {
        lead(world, spec, *step, &mut sent)?;
    }
    Ok(sent)
}

/// Sends a step if it may come, and puts it behind those that were sent.
fn lead(
    world: &mut MarkedWorld<'_>,
    spec: &Spec,
    step: u8,
    sent: &mut Line,
) -> Result<(), SendError>
    requires whole { world.old.spent ≡ false }
    requires of_spec { world.old.file ≡ spec.now }
    requires known { step < length spec.now.run.steps }
    ensures led { OnOk result ((ks : List ℕ) → sent.new.items ++ led spec.now.run.steps world.new.world ks ≡ sent.old.items ++ led spec.now.run.steps world.old.world (step ∷ ks)) }
    ensures whole { OnOk result (world.new.spent ≡ false) }
    ensures marked { world.new.marked ≡ world.old.marked }
    ensures of_spec { world.new.file ≡ world.old.file }
{
    if world.waits(spec.session_of(step)) {
        return Ok(());
    }
    world.send(step)?;
    // A line has no more steps than fit.
    match sent.try_push(step) {
        Ok(()) => Ok(()),
        Err(_) => Err(SendError::NoMemory),
    }
}
