//! The laws of the JSON of classes, each the contract of a function that does nothing.

ghost use Rattle.class_values.specs.Laws.{ClassesAreFree, LeftIsShown};

/// The JSON of classes has no sign that markup is made of, whatever its texts are, so it may stand in the script of a page.
pub fn classes_are_free()
    ensures { ClassesAreFree }
{}

/// What a class leaves stands there as in the JSON of its least order.
pub fn left_is_shown()
    ensures { LeftIsShown }
{}
