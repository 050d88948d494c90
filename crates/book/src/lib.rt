// book: the table of one side: the place of an order, insertion, search, removal, and the view of the live orders.
// It may use terms, tables and book_law. It promises: a call does to a lent table what the definitions of book_law do to the list of its
// orders, and one function serves both sides.

#![tactic(auto)]

pub mod side;
pub mod view;
