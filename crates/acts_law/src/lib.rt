// acts_law: the law of what an accepted event does to a day (an order comes in, one is cancelled, the day closes), and of its reports.
// It has no code, and may use terms, tables and the laws from rules_law to refusal_law. It promises: no lot is made or lost, numbers are
// given in order, every trade is where settings and reports allow it, a slab is told only where the band is widened, and the reports of an
// event stand in document 01's order and fit the room.

#![tactic(auto)]

use matching_law::Matched;
use state_law::Session;

// How many live orders a side has, and the place in the room behind the last report.
#[derive(Clone, Copy)]
pub struct Placed {
    pub count: usize,
    pub at: usize,
}

// How many live orders each side has after a cancel, and the place in the room behind its report.
#[derive(Clone, Copy)]
pub struct Withdrawn {
    pub buys: usize,
    pub sells: usize,
    pub at: usize,
}

// An order that is accepted and matched: the place of its first trade's record, and what matching answered.
#[derive(Clone, Copy)]
pub struct Crossed {
    pub first: usize,
    pub matched: Matched,
}

// An order that has met the counter side: the session, the counter orders that remain, the place behind the reports, the lots left,
// the price of its last trade or what stands for it, and whether it stopped out of range.
#[derive(Clone, Copy)]
pub struct Met {
    pub session: Session,
    pub count: usize,
    pub at: usize,
    pub left: u64,
    pub last: u64,
    pub out: bool,
}

// An order that has come in: the session, the live orders of its own side and of the other, the place behind its reports.
#[derive(Clone, Copy)]
pub struct Entered {
    pub session: Session,
    pub mine: usize,
    pub theirs: usize,
    pub at: usize,
}
