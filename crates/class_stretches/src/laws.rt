//! The laws of stretches, each the contract of a function that does nothing.

ghost use Rattle.class_stretches.specs.Groups.{StretchesAreGroups, NoneIsMissing, MissingAreTold, TalliesAreOfClasses};

/// Stretches give the groups of the ranks by what their classes show.
pub fn stretches_are_groups()
    ensures { StretchesAreGroups }
{}

/// Where no rank is missing, each one is in a class that there is.
pub fn none_is_missing()
    ensures { NoneIsMissing }
{}

/// What is told of missing ranks is their number, and the least of them.
pub fn missing_are_told()
    ensures { MissingAreTold }
{}

/// The tallies are those of the classes.
pub fn tallies_are_of_classes()
    ensures { TalliesAreOfClasses }
{}
