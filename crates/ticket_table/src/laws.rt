//! What holds of all histories. Each law is the contract of a function that does nothing.

ghost use Rattle.ticket_table.specs.History.{NumbersInOrder};

/// In a ticket history each word's numbers are 0, 1, 2 and so on.
pub fn numbers_in_order()
    ensures { NumbersInOrder }
{}
