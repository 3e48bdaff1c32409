//! The book of a shard.

ghost use mathlib.Core.List.{IsPrefix};
ghost use Rattle.std.specs.Prelude.{◌≡◌, ◌<◌, ◌≤◌, [], false, None, IfOk, IfErr, OnOk};
ghost use Rattle.std.specs.FinSet.{empty};
ghost use Rattle.bound_specs.specs.Spec.{IsBound, IsReady};
ghost use Rattle.rank_facts.specs.Shards.{IsShardOf};
ghost use Rattle.step_reducer.specs.Walking.{IsNotWalked, Starts};
ghost use Rattle.step_reducer.specs.Saying.{IsTold, fact_of};
ghost use Rattle.fact_books.specs.Books.{AllRecordable};
ghost use Rattle.fact_books.specs.Building.{added, AreFactsOf, FactFits};
ghost use Rattle.shard_books.specs.Gathering.{AreTold};

use bound_specs::Spec;
use fact_books::{Book, Builder};
use rank_facts::{Fact, Shard};
use session_machine::RunError;
use std::alloc::{AllocError, Global};
use step_reducer::{Said, SaidRun, ShardWalk};

/// The facts of the ranks of a shard, each with its own: when reducing the least swap where the rank has one, and else the
/// outcome. It is refused as its walk is. Levels are not asked for.
pub fn of_shard(alloc: Global, spec: &Spec, shard: Shard, reduce: bool) -> Result<Book, RunError>
    requires unasked { spec.now.asked ≡ None }
    ensures refused { IfErr result (IsNotWalked spec.now.run shard) }
    ensures lawful { OnOk result (IsShardOf spec.now.run shard) }
    ensures started { OnOk result (Starts spec.now.run) }
    ensures of_spec { IfOk result (λ book. book.file ≡ spec.now) }
    ensures facts { IfOk result (λ book. AreFactsOf reduce spec.now.run shard.first shard.end book.facts) }
{
    let mut walk = ShardWalk::new(alloc, spec, shard, reduce)?;
    Ok(of_walk(alloc, spec, &mut walk)?)
}

/// The facts of the ranks that a walk has before it in its shard, at whose end it stands then. Where memory is refused the walk is good for nothing
/// more: facts that it gave are gone.
pub fn of_walk(alloc: Global, spec: &Spec, walk: &mut ShardWalk<'_>) -> Result<Book, AllocError>
    requires unasked { spec.now.asked ≡ None }
    requires whole { walk.old.spent ≡ false }
    requires of_spec { walk.old.file ≡ spec.now }
    ensures of_spec { IfOk result (λ book. book.file ≡ spec.now) }
    ensures facts { IfOk result (λ book. AreFactsOf walk.old.reduce spec.now.run walk.old.at walk.old.end book.facts) }
    ensures behind { OnOk result (walk.new ≡ record walk.old { at = walk.old.end; told = walk.new.told }) }
    ensures front { OnOk result (IsPrefix walk.old.told walk.new.told) }
{
    spec.ready();
    let _sessions = spec.sessions(); // for the proof
    let builder = facts_before(alloc, walk)?;
    Book::of_facts(alloc, spec, builder)
}

/// The facts of the ranks that a walk has before it in its shard.
fn facts_before(alloc: Global, walk: &mut ShardWalk<'_>) -> Result<Builder, AllocError>
    requires whole { walk.old.spent ≡ false }
    requires bound { IsBound walk.old.file.run }
    requires ready { IsReady walk.old.file }
    ensures facts { IfOk result (λ builder. AreFactsOf walk.old.reduce walk.old.file.run walk.old.at walk.old.end builder.facts) }
    ensures recordable { IfOk result (λ builder. AllRecordable walk.old.file.run builder.facts) }
    ensures behind { OnOk result (walk.new ≡ record walk.old { at = walk.old.end; told = walk.new.told }) }
    ensures front { OnOk result (IsPrefix walk.old.told walk.new.told) }
{
    let mut builder = Builder::new(alloc);
    gather(walk, &mut builder)?;
    Ok(builder)
}

/// Adds the facts of the ranks that a walk has before it in its shard to a builder that has none.
fn gather(walk: &mut ShardWalk<'_>, builder: &mut Builder) -> Result<(), AllocError>
    requires whole { walk.old.spent ≡ false }
    requires bound { IsBound walk.old.file.run }
    requires ready { IsReady walk.old.file }
    requires none { builder.old.facts ≡ empty }
    requires first { builder.old.next ≡ 0 }
    requires nothing { builder.old.known ≡ [] }
    ensures facts { OnOk result (AreFactsOf walk.old.reduce walk.old.file.run walk.old.at walk.old.end builder.new.facts) }
    ensures recordable { OnOk result (AllRecordable walk.old.file.run builder.new.facts) }
    ensures behind { OnOk result (walk.new ≡ record walk.old { at = walk.old.end; told = walk.new.told }) }
    ensures front { OnOk result (IsPrefix walk.old.told walk.new.told) }
{
    'runs: loop {
        match walk.next_run() {
            Ok(Some(run)) => push(builder, walk, run)?,
            Ok(None) => return Ok(()),
            Err(_) => return Err(AllocError),
        }
    }
}

/// Adds the facts of a run, as a walk said it, behind those of smaller ranks. An outcome is known to the builder by the walk's number of it then.
fn push(builder: &mut Builder, walk: &ShardWalk<'_>, run: SaidRun) -> Result<(), AllocError>
    requires number { IsTold walk.now.told run.said }
    requires some { run.first < run.end }
    requires order { builder.old.next ≤ run.first }
    requires known { AreTold walk.now.told builder.old.known }
    ensures fits { OnOk result (FactFits (fact_of walk.now.told run.said)) }
    ensures added { OnOk result (builder.new ≡ record (added builder.old run.first run.end (fact_of walk.now.told run.said)) { known = builder.new.known }) }
    ensures known { OnOk result (AreTold walk.now.told builder.new.known) }
{
    match run.said {
        Said::Ran(number) => {
            let outcome = walk.told(number);
            outcome.known();
            builder.push_known(run.first, run.end, number, outcome)
        }
        Said::Swap(place) => builder.push(run.first, run.end, &Fact::Swap(place)),
    }
}
