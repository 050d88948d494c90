// acts_orders: an order that comes in: it meets the counter side, and what is left of it rests, turns into a limit or is cancelled.
// It may use acts_law, rules, state, book, matching and acts_reports. It promises: tables, room and session are those of acts_law.

#![tactic(auto)]

pub mod entering;
pub mod leftover;
