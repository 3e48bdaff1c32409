//! The laws of what is told, each the contract of a function that does nothing.

ghost use Rattle.book_stretches.specs.Laws.{TrueBooksTellTheMachine};

/// A book of true facts has no clash, and tells of a rank what the sequential machine gives it.
pub fn true_books_tell_the_machine()
    ensures { TrueBooksTellTheMachine }
{}
