//! The laws of classes of orders, each the contract of a function that does nothing.

ghost use Rattle.spec_classes.specs.Classes.{CountsAddUp};
ghost use Rattle.spec_classes.specs.Drawing.{DrawsAreEven};

/// All counts of classes together are the number of the orders.
pub fn counts_add_up()
    ensures { CountsAddUp }
{}

/// For each rank as many words stand as for any other, up to one: so ranks are drawn evenly.
pub fn draws_are_even()
    ensures { DrawsAreEven }
{}
