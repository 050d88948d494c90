// acts: an accepted event carried out: the tails of both tables are cleared, the clock steps, and the event acts.
// It may use engine_law, acts_reports, acts_orders and acts_cancels, and what these use. It promises: the count, the session and each lent
// number are those of engine_law.

#![tactic(auto)]

pub mod accepted;
