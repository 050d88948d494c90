// feed_turns: one line of input is read, applied and printed.
// It may use lines_reading, state, engine, feed_law and feed_prints, and what these use. It promises: where the run stands, what was taken
// and what is printed make a turn of feed_law.

#![tactic(auto)]

pub mod turns;
