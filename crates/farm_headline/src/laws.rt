//! The laws of what is run, joined and reported, each the contract of a function that does nothing.

ghost use Rattle.farm_headline.specs.Headline.{RunsAreTrue, RunsCover, NoRunIsMissing};
ghost use Rattle.farm_headline.specs.Joins.{JobsHold, FarmsHold, LeftsHold, RangesHold, RunsHold, JoinsHold, RunsDecide};
ghost use Rattle.farm_headline.specs.Laws.{RangesAreTrue, JoinsStayTrue, ReportsAreTheMachines, CoveringReports, OutcomesAreSerial};

/// Whatever ranges are run, whichever way they cover or overlap each other, and however their books are joined: what is reported is
/// what the sequential machine tells, rank by rank, and nothing is missing where each rank has a fact.
pub fn reports_are_the_machines()
    ensures ranges { RangesAreTrue }
    ensures joins { JoinsStayTrue }
    ensures reports { ReportsAreTheMachines }
    ensures covering { CoveringReports }
    ensures serial { OutcomesAreSerial }
{}

/// What was run decides the book, and so its report: neither the order, the grouping and the number of shards and of joins nor the workers do. Books of
/// jobs, of farms, whole or without shards for which memory was refused, of ranges, and of jobs with plans may be joined in any tree.
pub fn runs_decide()
    ensures job { JobsHold }
    ensures farm { FarmsHold }
    ensures left { LeftsHold }
    ensures range { RangesHold }
    ensures alone { RunsHold }
    ensures joins { JoinsHold }
    ensures decide { RunsDecide }
{}

/// What a book holds of any runs is true, and no rank that was run is missing: so its report is the machine's (`reports_are_the_machines`), in whatever
/// tree the books of the runs were joined.
pub fn runs_are_true()
    ensures truth { RunsAreTrue }
    ensures covering { RunsCover }
    ensures missing { NoRunIsMissing }
{}
