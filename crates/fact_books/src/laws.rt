//! The laws of books, each the contract of a function that does nothing.

ghost use Rattle.fact_books.specs.Laws.{JoinsCommute, JoinsAssociate, JoinsRepeat, OneReport, ReportsByOnePass};

/// Books of one spec may be joined in any order, in any grouping, and as often as one likes.
pub fn joins_are_unions()
    ensures commute { JoinsCommute }
    ensures associate { JoinsAssociate }
    ensures repeat { JoinsRepeat }
{}

/// A book's value decides its report: whichever way the book was made, it is reported alike, and as one pass over its ranks tells.
pub fn facts_decide_report()
    ensures one { OneReport }
    ensures by_one_pass { ReportsByOnePass }
{}
