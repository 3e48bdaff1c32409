//! The laws of reading. The functions do nothing: what they promise is the law.

ghost use Rattle.book_format.specs.ReadingLaws.{FormsReadBack};

/// The values that the one text of a book has for its runs and outcomes are read as the facts of the book.
pub fn forms_read_back()
    ensures { FormsReadBack }
{}
