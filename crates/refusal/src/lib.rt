// refusal: the first of the refusals 2 to 11 that applies to an event.
// It may use soundness, book and refusal_law, and what these use. It promises: the verdict is the first row of document 01's table that
// applies to the event on the day that is handed in, with bands judged after the clock steps; nothing is written.

#![tactic(auto)]

pub mod rows;
