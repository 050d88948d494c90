// matching_law: what a sweep leaves in the counter side's table, in the room and in its answer, as the code computes it.
// It has no code and may use book_law and what that uses. It promises: a sweep made one order at a time comes to what `sweep` says.

#![tactic(auto)]

use rules_law::Range;
use terms::{Kind, Side};

// An order that comes in, with the range in which it may trade, its number and time, and the price that stands for its own last trade
// while it has none.
#[derive(Clone, Copy)]
pub struct Incoming {
    pub side: Side,
    pub kind: Kind,
    pub range: Range,
    pub number: u64,
    pub lots: u64,
    pub time: u64,
    pub last: u64,
}

// What an incoming order does at a counter price: whether it trades there, and if not, whether that is because the price is out of range.
#[derive(Clone, Copy)]
pub struct AtPrice {
    pub trades: bool,
    pub out: bool,
}

// How far a sweep came: how many counter orders traded whole, the lots that the next one traded, the lots left of the incoming order,
// the trades made, the price of the last, and whether the sweep ended at a price out of range.
#[derive(Clone, Copy)]
pub struct Passed {
    pub whole: usize,
    pub part: u64,
    pub left: u64,
    pub trades: usize,
    pub last: u64,
    pub out: bool,
}

// What a sweep comes to: how many counter orders remain, the lots left, the trades made, the place in the room behind their reports, the
// price of the last, and whether the sweep ended at a price out of range.
#[derive(Clone, Copy)]
pub struct Matched {
    pub count: usize,
    pub left: u64,
    pub trades: usize,
    pub at: usize,
    pub last: u64,
    pub out: bool,
}
