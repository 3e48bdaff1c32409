//! The laws of the JSON of an order, each the contract of a function that does nothing.

ghost use Rattle.shown_values.specs.Laws.{PagesAreFree, StringsAreWhole};

/// The JSON of an order has no sign that markup is made of, whatever its texts are, so it may stand in the script of a page.
pub fn pages_are_free()
    ensures { PagesAreFree }
{}

/// No string has a line separator in it.
pub fn strings_are_whole()
    ensures { StringsAreWhole }
{}
