// acts_cancels: orders that leave the book: one by a cancel, all of them at the close.
// It may use acts_law, rules, book and acts_reports. It promises: tables, room and session are those of acts_law.

#![tactic(auto)]

pub mod closing;
pub mod withdrawing;
