//! The laws of classes, each the contract of a function that does nothing.

ghost use Rattle.order_classes.specs.Laws.{LeftIsSeen, SerialOrdersAreRanks, SessionOrdersAreAll, LetterRIsExact, LetterSIsExact, LettersAreTold};

/// Where rows fit their tables, the same is seen of them exactly where the same is left.
pub fn left_is_seen()
    ensures { LeftIsSeen }
{}

/// Each order of the sessions, each whole, is the line of a rank.
pub fn serial_orders_are_ranks()
    ensures { SerialOrdersAreRanks }
{}

/// The orders of sessions are all lists that have each session once.
pub fn session_orders_are_all()
    ensures { SessionOrdersAreAll }
{}

/// R is told exactly of what no rank answers that runs the sessions one behind the other, each whole.
pub fn letter_r_is_exact()
    ensures { LetterRIsExact }
{}

/// S is told exactly where a session still waits at the end.
pub fn letter_s_is_exact()
    ensures { LetterSIsExact }
{}

/// W, D, E and N are told exactly where a session is told such a thing.
pub fn letters_are_told()
    ensures { LettersAreTold }
{}
