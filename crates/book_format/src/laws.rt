//! The laws of book files, each the contract of a function that does nothing.

ghost use Rattle.book_format.specs.Laws.{BooksHaveOneText, BytesAreOneBook, TextsReadAsValues, WrittenBooksReadBack};

/// A book has one text: equal sets of facts of one spec are written alike.
pub fn books_have_one_text()
    ensures { BooksHaveOneText }
{}

/// Bytes are the file of one book at most, and where they are none there is one first reason.
pub fn bytes_are_one_book()
    ensures { BytesAreOneBook }
{}

/// The text of a book is JSON, and reads as the book's value.
pub fn texts_read_as_values()
    ensures { TextsReadAsValues }
{}

/// What is written of a book is read as the book.
pub fn written_books_read_back()
    ensures { WrittenBooksReadBack }
{}
