// state_law: the session and the day of one contract: its opening, the steps of its clock, and what a trade does to it.
// It has no code and may use terms and rules_law. It promises: an opened session begins as document 01 says; a trade at an end of the
// initial band widens it fifteen minutes later and no sooner; two steps of the clock are one.

#![tactic(auto)]

use rules_law::{Reckoning, Tape};
use terms::{Settings, Verdict};

// What the clock goes by: the time of the last accepted event and whether it was the close; how often the band has been widened and
// when the cooling-off ends, 0 where none runs; the underlying now, 0 where none is known. They stay numbers, and `closed` a flag: `clock_step`
// computes with them, and apps keep them so (the C interface).
#[derive(Clone, Copy)]
pub struct Dial {
    pub time: u64,
    pub closed: bool,
    pub widened: u64,
    pub cooling: u64,
    pub under: u64,
}

// How many orders are live on each side, and how many order numbers have been given.
#[derive(Clone, Copy)]
pub struct Live {
    pub buys: u64,
    pub sells: u64,
    pub given: u64,
}

// Everything that is kept of a day except its live orders, which lie in the lent tables.
#[derive(Clone, Copy)]
pub struct Session {
    pub settings: Settings,
    pub clock: Dial,
    pub live: Live,
    pub reckoning: Reckoning,
    pub tape: Tape,
}

// What an opening answers: whether the settings are refused, and the session.
// Not a Result of the session: `opening_of` promises the fixed session of a refused opening too.
#[derive(Clone, Copy)]
pub struct Opened {
    pub verdict: Verdict,
    pub session: Session,
}
