// state: the session of one contract on one day: how it is opened, how time moves it on, and how trades change it.
// It may use terms, rules_law, rules and state_law. It promises: each step is the definition of state_law; time comes from the event that is
// handed in and from nothing else.

#![tactic(auto)]

pub mod clock;
pub mod force;
pub mod opening;
pub mod trades;
