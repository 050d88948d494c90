// feed_law: the law of text in and text out: what a line of input comes to, and what a run of bytes prints and is to be saved of it.
// It has no code, and may use engine_law, records_law and the laws of lines, and what these use. It promises: in whatever way the input is
// cut into pieces, what is printed in all is `printed` of the whole.

#![tactic(auto)]

use state_law::Session;
use terms::Refusal;

// What the next line of a run has to be: settings, an event, or nothing more.
#[derive(Clone, Copy)]
pub enum Stage {
    Awaiting,
    Trading,
    Over,
}

// Where a run stands: all that is kept from line to line, except the live orders, which lie in the lent tables.
#[derive(Clone, Copy)]
pub struct Run {
    pub stage: Stage,
    pub session: Session,
}

// Why no further line was taken: the bytes hold no whole one; the output room must be emptied first; the run is over; something that was
// lent is too short. Not a Result, which would be no plainer: three of its four kinds are no failure.
#[derive(Clone, Copy)]
pub enum Stop {
    Waits,
    Full,
    Over,
    Refused(Refusal),
}

// What one line came to: where the run stands after it, how many bytes it has (0 where none was taken), how many of them are to be saved, and
// how many were printed.
#[derive(Clone, Copy)]
pub struct Turned {
    pub run: Run,
    pub used: usize,
    pub saves: usize,
    pub wrote: usize,
}

// What many lines came to, and why no more were taken.
#[derive(Clone, Copy)]
pub struct Taken {
    pub run: Run,
    pub used: usize,
    pub wrote: usize,
    pub stop: Stop,
}
