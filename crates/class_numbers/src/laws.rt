//! The laws of numbers of orders, each the contract of a function that does nothing but cite others.

ghost use Rattle.class_numbers.specs.Laws.{BooksAreOfOrders, ExpectationsAreOfOrders, FindingsAreOfOrders};

use class_looks::{expectations_are_seen, looks_see_lines};
use class_texts::one_row_is_met;

/// It is told to be so of as many orders as are asked for and as expected, and the first is told that is asked for and is not.
pub fn expectations_are_of_orders()
    ensures { ExpectationsAreOfOrders }
{
    expectations_are_seen();
    looks_see_lines();
    one_row_is_met();
}

/// Nothing is amiss exactly where each order that is asked for is as expected.
pub fn findings_are_of_orders()
    ensures { FindingsAreOfOrders }
{
    expectations_are_seen();
}

/// Of books the totals and classes have the numbers of orders whose outcome they tell, and so many are missing as have none.
pub fn books_are_of_orders()
    ensures { BooksAreOfOrders }
{}
