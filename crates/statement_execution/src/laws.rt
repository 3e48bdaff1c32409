//! Laws of evaluation. The functions do nothing: what they promise is the law.

ghost use Rattle.std.specs.Prelude.{◌≡◌, Bool, Option};
ghost use Rattle.statement_evaluation.specs.Evaluate.{and_then, or_else};

/// It does not matter which two of three conditions AND joins first, nor OR, also where a value leaves the range. So whether a row meets
/// a chain follows from the list of its parts.
pub fn links_are_associative()
    ensures all { (a b c : Option Bool) → and_then (and_then a b) c ≡ and_then a (and_then b c) }
    ensures any { (a b c : Option Bool) → or_else (or_else a b) c ≡ or_else a (or_else b c) }
{}
