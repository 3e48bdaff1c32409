//! The facts of the ranks of a shard, in order.

ghost use Rattle.std.specs.Prelude.{◌≡◌, ◌↔◌, ◌-◌, ◌++◌, [], ◌∷◌, true, false, IfOk, IfErr, OnOk, OnErr, IsErrOf, ◌≤◌};
ghost use Rattle.step_reducer.specs.declared.error.WalkError.TheVariants as walk_error;
ghost use Rattle.rank_facts.specs.Shards.{IsShardOf};
ghost use Rattle.step_reducer.specs.Saying as spec;
ghost use Rattle.step_reducer.specs.Saying.{IsTold, run_of};
ghost use Rattle.step_reducer.specs.Walking.{walk_told, begun_at, AreSent, GivesRun, GivesFact, HasStopped, IsNotWalked, Starts, AreFacts};

use crate::error::WalkError;
use crate::fact::FactRun;
use crate::said::{Said, SaidRun};
use crate::start::{check, walk_for};
use crate::walk::Walk;
use bound_specs::Spec;
use finite_maps::Fork;
use rank_facts::{Fact, Shard};
use session_machine::RunError;
use std::alloc::{AllocError, Global};
use std::marker::Model;

/// Gives the facts of the ranks of a shard in rising order, of many ranks at once where one swap covers them. Contracts see
/// the spec, whether facts are reduced, the shard, the next rank, the steps sent so far, whether no run was given in part, and
/// whether memory was refused.
pub struct Walker<'a> {
    spec: &'a Spec,
    reduce: bool,
    first: u64,
    at: u64,
    end: u64,
    sent: u64,
    walk: Walk<'a>,
    rest: Option<FactRun>,
    is_spent: bool,
}

// Written out and not derived, so that who owns one calls this and does not let its parts go one by one.
impl Drop for Walker<'_> {
    fn drop(self) {
        let Walker {
            spec: _,
            reduce: _,
            first: _,
            at: _,
            end: _,
            sent: _,
            walk: _walk,
            rest: _rest,
            is_spent: _,
        } = self;
    }
}

impl<'a> Model for Walker<'a> {
    ghost use Rattle.std.specs.Coded.{codes};
    ghost use Rattle.bound_statements.specs.contracts.statement.Bound as bound;
    ghost use Rattle.step_reducer.specs.Walking.{Walking, is_whole, AreSent, IsStandingUnless};

    ghost Value = { Walking };

    ghost coded = { Prim.hlevel (codes, bound.the_row.coded) };

    ghost view = { λ w. record {
      file = w.spec.now;
      reduce = w.reduce;
      first = w.first;
      at = w.at;
      end = w.end;
      sent = w.sent;
      whole = is_whole w.rest;
      spent = w.is_spent;
    } };

    ghost invariant = { λ w. IsStandingUnless w.is_spent w.spec.now w.reduce w.first w.at w.end w.sent w.walk w.rest
        × AreSent w.reduce w.spec.now.run w.first w.at w.sent };
}

impl<'a> Walker<'a> {
    /// A walker at the first rank of a shard. Of these refusals the first that fits comes: a shard out of the spec's ranks, one that
    /// is too long, and a spec that does not start.
    pub fn new(
        alloc: Global,
        spec: &'a Spec,
        shard: Shard,
        reduce: bool,
    ) -> Result<Walker<'a>, RunError>
        ensures refused { IfErr result (IsNotWalked spec.now.run shard) }
        ensures lawful { OnOk result (IsShardOf spec.now.run shard) }
        ensures started { OnOk result (Starts spec.now.run) }
        ensures begun { IfOk result (λ walker. walker ≡ begun_at spec.now shard reduce) }
    {
        check(spec, shard)?;
        let walk = walk_for(alloc, spec, shard, shard.end, reduce)?;
        Ok(Walker {
            spec,
            reduce,
            first: shard.first,
            at: shard.first,
            end: shard.end,
            sent: 0,
            walk,
            rest: None,
            is_spent: false,
        })
    }

    /// The steps sent for the ranks given so far: where no rank is skipped, of each rank's line those behind the longest front that it
    /// shares with the line of the rank before it, and of the first one all. The setups are no steps. A refused call adds none. What is known of
    /// a world that came before counts as sent too, though no machine ran.
    pub fn sent(&self) -> u64
        ensures sent { result ≡ self.now.sent }
        ensures exact { AreSent self.now.reduce self.now.file.run self.now.first self.now.at result }
    {
        self.sent
    }

    /// The fact of the next ranks, at least of one, in time that does not grow with their number. None at the end of the shard.
    pub fn next_run(&mut self) -> Result<Option<FactRun>, WalkError>
        ensures run { IfOk result (GivesRun self.old self.new) }
        ensures whole { OnOk result (self.new.spent ≡ false) }
        ensures spent { IsErrOf result walk_error.Spent ↔ (self.old.spent ≡ true) }
        ensures after { OnErr result (HasStopped self.old self.new) }
    {
        if self.is_spent {
            return Err(WalkError::Spent);
        }
        if let Some(rest) = self.rest.take() {
            self.at = rest.end;
            return Ok(Some(rest));
        }
        if self.at == self.end {
            return Ok(None);
        }
        self.is_spent = true;
        let given = self.walk.next_run(self.spec, self.reduce, self.end)?;
        let run = fact_run(&self.walk, given.run)?;
        self.is_spent = false;
        self.at = given.run.end;
        self.sent += given.sent as u64;
        Ok(Some(run))
    }

    /// The fact of the next rank. None at the end of the shard.
    pub fn next(&mut self) -> Result<Option<(u64, Fact)>, WalkError>
        ensures fact { IfOk result (GivesFact self.old self.new) }
        ensures spent { IsErrOf result walk_error.Spent ↔ (self.old.spent ≡ true) }
        ensures after { OnErr result (HasStopped self.old self.new) }
    {
        let sent = self.sent;
        let Some(run) = self.next_run()? else {
            return Ok(None);
        };
        let FactRun { first, end, fact } = run;
        if first + 1 == end {
            return Ok(Some((first, fact)));
        }
        let Ok(one) = fact.fork() else {
            self.is_spent = true;
            self.at = first;
            self.sent = sent;
            return Err(WalkError::NoMemory);
        };
        self.at = first + 1;
        self.rest = Some(FactRun {
            first: first + 1,
            end,
            fact,
        });
        Ok(Some((first, one)))
    }
}

/// What a walk said of a run, with its fact.
fn fact_run(walk: &Walk<'_>, run: SaidRun) -> Result<FactRun, AllocError>
    requires { IsTold (walk_told walk.now) run.said }
    ensures { IfOk result (λ made. made ≡ run_of (walk_told walk.now) run) }
{
    let fact = fact_of(walk, run.said)?;
    Ok(FactRun {
        first: run.first,
        end: run.end,
        fact,
    })
}

/// The fact that a walk said. An outcome is shared with the walk.
fn fact_of(walk: &Walk<'_>, said: Said) -> Result<Fact, AllocError>
    requires { IsTold (walk_told walk.now) said }
    ensures { IfOk result (λ fact. fact ≡ spec.fact_of (walk_told walk.now) said) }
{
    match said {
        Said::Ran(number) => Ok(Fact::Ran(walk.told(number).fork()?)),
        Said::Swap(place) => Ok(Fact::Swap(place)),
    }
}

/// The facts of the ranks of a shard, each with its rank.
pub fn run_shard(
    alloc: Global,
    spec: &Spec,
    shard: Shard,
    reduce: bool,
) -> Result<Vec<(u64, Fact)>, RunError>
    ensures refused { IfErr result (IsNotWalked spec.now.run shard) }
    ensures lawful { OnOk result (IsShardOf spec.now.run shard) }
    ensures started { OnOk result (Starts spec.now.run) }
    ensures facts { IfOk result (λ facts. AreFacts reduce spec.now.run shard.first (shard.end - shard.first) facts.items) }
{
    let walker = Walker::new(alloc, spec, shard, reduce)?;
    Ok(all_facts(alloc, walker, shard)?)
}

/// The facts of all ranks that a walker has before it, with which it ends.
fn all_facts(
    alloc: Global,
    mut walker: Walker<'_>,
    shard: Shard,
) -> Result<Vec<(u64, Fact)>, AllocError>
    requires whole { walker.spent ≡ false }
    requires first { walker.at ≡ shard.first }
    requires end { walker.end ≡ shard.end }
    requires order { shard.first ≤ shard.end }
    ensures { IfOk result (λ facts. AreFacts walker.entry.reduce walker.entry.file.run shard.first (shard.end - shard.first) facts.items) }
{
    facts_of(alloc, &mut walker, shard)
}

/// The facts of all ranks that a walker has before it.
fn facts_of(
    alloc: Global,
    walker: &mut Walker<'_>,
    shard: Shard,
) -> Result<Vec<(u64, Fact)>, AllocError>
    requires whole { walker.old.spent ≡ false }
    requires first { walker.old.at ≡ shard.first }
    requires end { walker.old.end ≡ shard.end }
    requires order { shard.first ≤ shard.end }
    ensures { IfOk result (λ facts. AreFacts walker.old.reduce walker.old.file.run shard.first (shard.end - shard.first) facts.items) }
{
    let mut facts = Vec::with_capacity(alloc, (shard.end - shard.first) as usize)?;
    for _rank in shard.first..shard.end {
        match walker.next() {
            Ok(Some(fact)) => push(&mut facts, fact)?,
            Ok(None) => unreachable!(),
            Err(_) => return Err(AllocError),
        }
    }
    Ok(facts)
}

fn push(facts: &mut Vec<(u64, Fact)>, fact: (u64, Fact)) -> Result<(), AllocError>
    ensures { OnOk result (facts.new.items ≡ facts.old.items ++ fact ∷ []) }
{
    facts.push(fact)?;
    Ok(())
}
