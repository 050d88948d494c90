// engine_law: the law of the public calls: the outcome of an event, and what a call leaves in everything that was lent.
// It has no code, and may use acts_law and what that uses. It promises: an accepted event leaves a sound day, a refused one changes nothing,
// and calls on a session lead from sound day to sound day; where a session stands is told by the definitions that judge orders.

#![tactic(auto)]

use state_law::Session;
use terms::{Band, Refusal, Verdict};

// The answer to an event: the count of its reports, or the refusal.
pub type Answer = Result<u64, Refusal>;

// The answer to an event, and the session after it: by a refusal too, the one that was given.
#[derive(Clone, Copy)]
pub struct Applied {
    pub answer: Answer,
    pub session: Session,
}

// An event that has begun: the session after the clock steps, and the place behind their reports.
#[derive(Clone, Copy)]
pub struct Begun {
    pub session: Session,
    pub at: usize,
}

// Where a session stands: the percent in force with its band, the execution range with the reference that it lies around, whether a
// cooling-off runs and when it ends (0 where none runs), the last trade's price and lots (0 before any trade), live orders a side,
// order numbers given so far, trades made. `cooling` and `ends` are two of the 14 numbers that apps are handed (the C interface), so no Option.
#[derive(Clone, Copy)]
pub struct Standing {
    pub percent: u64,
    pub band: Band,
    pub range: Band,
    pub reference: u64,
    pub cooling: bool,
    pub ends: u64,
    pub price: u64,
    pub lots: u64,
    pub buys: u64,
    pub sells: u64,
    pub given: u64,
    pub trades: u64,
}

// The answer to the question where a session stands: a refusal or none, and the standing.
// Not a Result of the standing: `standing_call` and docs/PROMISES.md promise a standing of zeros by a refusal.
#[derive(Clone, Copy)]
pub struct Stood {
    pub verdict: Verdict,
    pub standing: Standing,
}
