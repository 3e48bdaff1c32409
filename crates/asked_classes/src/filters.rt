//! Which orders are meant by the filters that are wanted.

ghost use Rattle.std.specs.Prelude.{◌≡◌, ◌↔◌, ℕ, IfErr, IfOk, MatchOption, true};
ghost use Rattle.asked_classes.specs.Filters.{AreMeant, AreUnmeant, IsMeant, IsMeantTest, IsSessionNamed, IsUnmeant, IsUnmeantTest, TellsR};

use crate::fault::AskedFault;
use bound_specs::Spec;
use order_classes::{Filter, Test};
use std::alloc::Global;
use wanted_classes::{WantedFilter, WantedSample, WantedTest};

/// The filters that are meant, of the sessions of a spec. It is refused for the first by which nothing is meant.
pub(crate) fn filters_of<'a>(
    alloc: Global,
    spec: &Spec,
    sample: Option<WantedSample>,
    wanted: &[WantedFilter<'a>],
) -> Result<Vec<Filter>, AskedFault<'a>>
    ensures meant { IfOk result (λ filters. AreMeant spec.now sample wanted.now filters.items) }
    ensures refused { IfErr result (AreUnmeant spec.now sample wanted.now) }
{
    let mut filters = Vec::new(alloc);
    for place in 0..wanted.len() {
        let filter = match filter_of(spec, sample, wanted[place]) {
            Ok(filter) => filter,
            Err(fault) => return Err(fault),
        };
        let Ok(()) = filters.push(filter) else {
            return Err(AskedFault::NoMemory);
        };
    }
    Ok(filters)
}

fn filter_of<'a>(
    spec: &Spec,
    sample: Option<WantedSample>,
    wanted: WantedFilter<'a>,
) -> Result<Filter, AskedFault<'a>>
    ensures meant { IfOk result (IsMeant spec.now sample wanted.entry) }
    ensures unmeant { IfErr result (IsUnmeant spec.now sample wanted.entry) }
{
    match test_of(spec, sample, wanted.test) {
        Ok(test) => Ok(Filter {
            test,
            wanted: wanted.wanted,
        }),
        Err(fault) => Err(fault),
    }
}

fn test_of<'a>(
    spec: &Spec,
    sample: Option<WantedSample>,
    wanted: WantedTest<'a>,
) -> Result<Test, AskedFault<'a>>
    ensures meant { IfOk result (IsMeantTest spec.now sample wanted.entry) }
    ensures unmeant { IfErr result (IsUnmeantTest spec.now sample wanted.entry) }
{
    match wanted {
        WantedTest::Waits => Ok(Test::Waits),
        WantedTest::Deadlock => Ok(Test::Deadlock(None)),
        WantedTest::DeadlockOf(name) => match session_named(spec, name) {
            Some(session) => Ok(Test::Deadlock(Some(session))),
            None => Err(AskedFault::UnknownSession(name)),
        },
        WantedTest::Error => Ok(Test::Error),
        WantedTest::NotSent => Ok(Test::Unsent),
        WantedTest::Stuck => Ok(Test::Stuck),
        WantedTest::Anomaly => {
            if tells_r(spec, sample) {
                Ok(Test::NotSerial)
            } else {
                Err(AskedFault::NotTold)
            }
        }
    }
}

/// Whether R is told of the orders that are counted.
fn tells_r(spec: &Spec, sample: Option<WantedSample>) -> bool
    ensures { (result ≡ true) ↔ TellsR spec.now sample }
{
    match sample {
        None => spec.shape().is_some(),
        Some(_) => false,
    }
}

/// The first session of this name.
fn session_named(spec: &Spec, name: &str) -> Option<u8>
    ensures { MatchOption result ((k : ℕ) → IsSessionNamed spec.now name.now k → ⊥) (IsSessionNamed spec.now name.now) }
{
    for session in 0..spec.sessions() {
        if spec.session_name(session) == name {
            return Some(session);
        }
    }
    None
}
