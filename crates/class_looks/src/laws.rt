//! The laws of looks, each the contract of a function that does nothing.

ghost use Rattle.class_looks.specs.Laws.{LooksAreSpelled, LooksSeeLines, ExpectationsAreSeen};

/// A text is a look exactly where it spells one SELECT alone, and that binds.
pub fn looks_are_spelled()
    ensures { LooksAreSpelled }
{}

/// What a look sees of the rows that a line leaves is what the SELECT does in the world behind it.
pub fn looks_see_lines()
    ensures { LooksSeeLines }
{}

/// An expectation is met behind a line exactly where the look sees that row of what it leaves.
pub fn expectations_are_seen()
    ensures { ExpectationsAreSeen }
{}
