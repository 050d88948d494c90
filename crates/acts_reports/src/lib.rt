// acts_reports: reports told into the room, and trades remembered from the records that matching has just written there.
// It may use state, acts_law and engine_law, and what these use. It promises: the reports stand in the room in their order, and no number
// past them is touched.

#![tactic(auto)]

pub mod counting;
pub mod remembering;
pub mod telling;
