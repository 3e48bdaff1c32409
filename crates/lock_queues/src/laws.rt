//! The laws of the lock table, each the contract of a function that does nothing.

ghost use Rattle.lock_queues.specs.Laws.{StaysSound, CoveredIsHad, WaitersReach, TestsDecideBelow, ReasonsAreExact, RingsAreFound};

/// Modes of different sessions stay compatible, no session waits twice and no ring comes.
pub fn tables_stay_sound()
    ensures { StaysSound }
{}

/// A mode that the held one covers is granted, and nothing changes.
pub fn covered_modes_are_had()
    ensures { CoveredIsHad }
{}

/// Where every ripe wait has been granted, each session that waits reaches one that does not.
pub fn waiters_reach()
    ensures { WaitersReach }
{}

/// The rules over all sessions are what their tests up to a number compute, where all sessions are below it.
pub fn tests_decide()
    ensures { TestsDecideBelow }
{}

/// In a sound table something is told of whoever waits and of nobody else: what its session wants, each reason why it has to wait, and no other.
pub fn reasons_are_exact()
    ensures { ReasonsAreExact }
{}

/// Where a wait closes a ring, the ring that is computed is a shortest one, no session twice.
pub fn rings_are_found()
    ensures { RingsAreFound }
{}
