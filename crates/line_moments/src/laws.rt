//! The laws of moments, each the contract of a function that does nothing.

ghost use Rattle.line_moments.specs.Laws.{MomentsLead, MomentsAreInTurn, MomentsTell, MomentsAreOutcomes, WantsAreExact, MomentsWait, MomentsLose, MomentsLack};
ghost use Rattle.line_moments.specs.Laws.{MomentsHold, MomentsAreTrue, RingsAreTold, LacksAreTold, StillIsExact, MomentsAreOfSteps, SpecsMomentsAreOfSteps};
ghost use Rattle.line_moments.specs.Laws.{LocksAreAsked, StepsAreTold, WaitersGoOn, StillWaitsAreExact};
ghost use Rattle.line_moments.specs.Laws.{StandingsAreExact, LeftIsExact, KeysTellRows, ShownIsTrue, FilesAreShown};

/// The moments of a line lead from its first world to its last, each when it is due, by the steps of the line in their order.
pub fn moments_lead()
    ensures { MomentsLead }
{}

/// The moments of a line are those of its steps, one step after another.
pub fn moments_are_in_turn()
    ensures { MomentsAreInTurn }
{}

/// What each session is told in its moments is what its transcript grows by.
pub fn moments_tell()
    ensures { MomentsTell }
{}

/// From the start of a spec, what each session is told in its moments is the outcome of the line.
pub fn moments_are_outcomes()
    ensures { MomentsAreOutcomes }
{}

/// In a steady world, also where waits are ripe, something is told of whoever waits and of nobody else, and what is told is exact.
pub fn wants_are_exact()
    ensures { WantsAreExact }
{}

/// A moment ends with a wait exactly where its session waits in the world behind it, and what is told of the wait is exact there.
pub fn moments_wait()
    ensures { MomentsWait }
{}

/// The locks that a moment tells are those that its session asked for, in their order, and no others.
pub fn locks_are_asked()
    ensures { LocksAreAsked }
{}

/// A moment that ends with a deadlock tells a ring that the wait of a request of its step would have closed.
pub fn moments_lose()
    ensures { MomentsLose }
{}

/// A moment that ends with a lack tells what a request of its step wanted that refuses to wait, and exactly why it could not be had.
pub fn moments_lack()
    ensures { MomentsLack }
{}

/// What each session holds, changed by its moments, is what it holds behind them.
pub fn moments_hold()
    ensures { MomentsHold }
{}

/// Each moment is true of the world behind it, where nothing is changed of the other sessions.
pub fn moments_are_true()
    ensures { MomentsAreTrue }
{}

/// A moment tells a ring exactly where it tells of a deadlock.
pub fn rings_are_told()
    ensures { RingsAreTold }
{}

/// A moment tells a lack exactly where it tells that a lock was not available.
pub fn lacks_are_told()
    ensures { LacksAreTold }
{}

/// A moment tells of another session that it still waits exactly where it waits for other reasons than before.
pub fn still_is_exact()
    ensures { StillIsExact }
{}

/// The reasons that a moment tells of another session are those of its wait in the world behind the moment.
pub fn still_waits_are_exact()
    ensures { StillWaitsAreExact }
{}

/// Each moment is of a step of its session.
pub fn moments_are_of_steps()
    ensures { MomentsAreOfSteps }
{}

/// From the start of a spec, each moment is of a step of its session.
pub fn specs_moments_are_of_steps()
    ensures { SpecsMomentsAreOfSteps }
{}

/// Each moment is of the step that comes, or where its session goes on of the step that it was sent last.
pub fn steps_are_told()
    ensures { StepsAreTold }
{}

/// In a line of a spec a session goes on where its last moment ended with that wait, with the step that it was sent last.
pub fn waiters_go_on()
    ensures { WaitersGoOn }
{}

/// In a steady world each session stands as is told.
pub fn standings_are_exact()
    ensures { StandingsAreExact }
{}

/// Of a world whose rows fit the tables the committed rows of each table are told, and no others.
pub fn left_is_exact()
    ensures { LeftIsExact }
{}

/// Where every table has a key, two worlds whose tables have the same rows have the same committed rows.
pub fn keys_tell_rows()
    ensures { KeysTellRows }
{}

/// What is shown of a line is true of the worlds that it begins with and ends in.
pub fn shown_is_true()
    ensures { ShownIsTrue }
{}

/// What is shown of a line of a spec file tells what is left of each table that its main setups declare, in their order.
pub fn files_are_shown()
    ensures { FilesAreShown }
{}
