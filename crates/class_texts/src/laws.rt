//! The laws of the text of classes, each the contract of a function that does nothing.

ghost use Rattle.class_texts.specs.Laws.{LettersAreTold, MissesAreTold, OneRowIsMet, StandingsAreShown};

/// Where other letters are shown, other words are told.
pub fn letters_are_told()
    ensures { LettersAreTold }
{}

/// An expectation is met exactly where one row is seen, with its values.
pub fn one_row_is_met()
    ensures { OneRowIsMet }
{}

/// An expectation is told to hold exactly where there is no order of which it does not, and else of how many it does not.
pub fn misses_are_told()
    ensures { MissesAreTold }
{}

/// How a session stands that has not ended is told in the words of `show`.
pub fn standings_are_shown()
    ensures { StandingsAreShown }
{}
