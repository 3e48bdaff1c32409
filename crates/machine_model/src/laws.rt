//! The laws of the machine, each the contract of a function that does nothing.

ghost use Rattle.machine_model.specs.Laws.{LevelsChangeNothing, SendKeepsSound, StatusesAreForeseen, WaitsAreRings, StartsSound, WaitersReach, OutcomesAreOwn, WorldsReachedAreSound};
ghost use Rattle.machine_model.specs.Typed.{GoingKeepsFit, WorldsFit, RowsSeenFit, NoDefaultIsMet, NumbersAreNew};

/// A step sent leaves a sound world sound: held modes compatible, overlays under locks, no ripe wait, no ring.
pub fn send_keeps_sound()
    ensures { SendKeepsSound }
{}

/// The test for rings finds exactly the ways along the edges.
pub fn waits_are_rings()
    ensures { WaitsAreRings }
{}

/// A spec that starts, starts in a sound world.
pub fn starts_sound()
    ensures { StartsSound }
{}

/// In a sound world each session that waits reaches one that does not.
pub fn waiters_reach()
    ensures { WaitersReach }
{}

/// In every world of a line of a spec, each session was told of its own steps alone.
pub fn outcomes_are_own()
    ensures { OutcomesAreOwn }
{}

/// Every world of a line of a spec is sound, with a part for each session and for the control session.
pub fn worlds_reached_are_sound()
    ensures { WorldsReachedAreSound }
{}

/// Where the statements of a spec fit tables, every world of a line fits them: committed rows, what sessions have written, and what is left of their steps;
/// wherever a session goes, each of its statements sees rows that fit; and so are the rows that a session sees between steps. A row that fits has a value of its
/// type in each column, and lies at its key, or at a row number in a table without one.
pub fn rows_fit()
    ensures going { GoingKeepsFit }
    ensures worlds { WorldsFit }
    ensures seen { RowsSeenFit }
{}

/// A statement that fits the tables, over rows that fit them, meets no default of evaluation: each column that its conditions, expressions, sort keys,
/// outputs and sums take of a row has a value there, and what is multiplied, added, summed or compared has the type for it.
pub fn no_default_is_met()
    ensures { NoDefaultIsMet }
{}

/// Rows that fit are never overwritten by new ones where there is no key: the number that the first new row gets is past those of all rows there.
pub fn numbers_are_new()
    ensures { NumbersAreNew }
{}

/// Where statements ask for their whole plans at each level, as all do where levels are not asked for, no level has an effect.
pub fn levels_change_nothing()
    ensures { LevelsChangeNothing }
{}

/// A step's tasks are made when it is sent, each statement at the level of the transaction in which it will run.
pub fn statuses_are_foreseen()
    ensures { StatusesAreForeseen }
{}
