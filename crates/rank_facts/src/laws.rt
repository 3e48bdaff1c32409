//! The laws of quiet steps and of facts, each the contract of a function that does nothing.

ghost use Rattle.rank_facts.specs.Laws.{QuietStepsCommute, QuietIsMutual, QuietStepsAreCalm, StepsHaveFootprints, StepsHaveFootprintsUntil, PlansOpen, SwapKeepsWorlds, LettersAreSteps, ChainsEnd, LeadsAreExchanges, SwapsLeadDown, SwapsHold, FactsAreOne, LinesRun, Headline};

/// Two quiet steps may be sent in either order.
pub fn quiet_steps_commute()
    ensures { QuietStepsCommute }
{}

/// Of quiet steps either may be called the first.
pub fn quiet_is_mutual()
    ensures { QuietIsMutual }
{}

/// Quiet steps, the first alone and both, note no wait and leave all other sessions alone.
pub fn quiet_steps_are_calm()
    ensures { QuietStepsAreCalm }
{}

/// A session whose requests are all had goes as if alone, reads what its plans open and writes where it holds the locks to.
pub fn steps_have_footprints()
    ensures { StepsHaveFootprints }
{}

/// The same of a step up to a request that may not be had.
pub fn steps_have_footprints_until()
    ensures { StepsHaveFootprintsUntil }
{}

/// The plan of a statement opens every row that the statement looks at.
pub fn plans_open()
    ensures { PlansOpen }
{}

/// A true swap leads to a word with the same world at its end.
pub fn swap_keeps_worlds()
    ensures { SwapKeepsWorlds }
{}

/// Letters of a word that fall are exchanged by the steps of its line.
pub fn letters_are_steps()
    ensures { LettersAreSteps }
{}

/// Each exchange leaves fewer falls, so a chain of exchanges ends.
pub fn chains_end()
    ensures { ChainsEnd }
{}

/// An exchange leads exactly to the rank whose word it gives.
pub fn leads_are_exchanges()
    ensures { LeadsAreExchanges }
{}

/// Wherever an exchange leads there is a smaller rank.
pub fn swaps_lead_down()
    ensures { SwapsLeadDown }
{}

/// A true swap of a spec leads to a smaller rank with the same outcome.
pub fn swaps_hold()
    ensures { SwapsHold }
{}

/// The computed fact of a rank is the one fact that it has.
pub fn facts_are_one()
    ensures { FactsAreOne }
{}

/// Of a spec with lines each fact is an outcome.
pub fn lines_run()
    ensures { LinesRun }
{}

/// True facts of a spec tell what the sequential machine tells: no rank has another value than its outcome, and where each rank has a
/// fact each has its outcome as a value.
pub fn headline()
    ensures { Headline }
{}
