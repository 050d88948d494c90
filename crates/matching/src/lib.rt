// matching: an order that comes in sweeps the counter side's table, and each of its trades is reported in the room.
// It may use terms, tables, rules_law, rules, book_law and matching_law. It promises: table, room and answer are what `sweep` of book_law
// says of the counter orders, with one function for both sides, whatever the orders are. It asks for a table that holds them, a range within
// its bounds, and room for a report of each of them.

#![tactic(auto)]

pub mod crossing;
pub mod deals;
pub mod prices;
