//! The laws of numbers, each the contract of a function that does nothing.

ghost use Rattle.numbered_specs.specs.Places.{EachWritesKnown, NumbersAreApart};

/// Two numbers of one resource are one.
pub fn numbers_are_apart()
    ensures { NumbersAreApart }
{}

/// No statement changes a key: where it leaves a row, or none, one lay there already, or it has asked for that key, or the table has no key.
pub fn writes_are_known()
    ensures { EachWritesKnown }
{}
