//! The laws of the text that shows an order, each the contract of a function that does nothing.

ghost use Rattle.shown_texts.specs.Laws.{BrokenLinesFit, BrokenTextsAreWhole, ShortenedNamesDiffer, SmallPagesAreNarrow};

/// Where a text is broken into lines nothing of it is lost, and nothing comes to it.
pub fn broken_texts_are_whole()
    ensures { BrokenTextsAreWhole }
{}

/// No line of a broken text is wider than it may be.
pub fn broken_lines_fit()
    ensures { BrokenLinesFit }
{}

/// No two names are the same when they are shortened.
pub fn shortened_names_differ()
    ensures { ShortenedNamesDiffer }
{}

/// No line of a page of up to four sessions is wider than 80.
pub fn small_pages_are_narrow()
    ensures { SmallPagesAreNarrow }
{}
