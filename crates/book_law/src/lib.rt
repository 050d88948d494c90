// book_law: the definitions and laws of the book: priority, the place of an order, matching, and what becomes of a remainder.
// It has no code and may use terms, tables and rules_law. It promises: no lot is made or lost, every fill is at a resting price in range,
// a market order's fills are within the mark of its first, and a sweep stops only where document 01 says.

#![tactic(auto)]

use terms::Why;

// What becomes of the lots that an order has left: none is left; it rests at its limit; it becomes a limit at a price and rests; it is
// cancelled, for a reason. Four ends, none of them a failure, so no Result.
#[derive(Clone, Copy)]
pub enum Fate {
    Done,
    Rests(u64),
    Turns(u64),
    Ends(Why),
}
