// desk_packing: settings, sessions and events as numbers, for apps that keep and hand over nothing else.
// It may use terms, tables, rules_law, state_law and desk_packing_law. It promises: packing and unpacking are the definitions of
// desk_packing_law, for any numbers whatever.

#![tactic(auto)]

pub mod events;
pub mod runs;
pub mod sessions;
pub mod settings;
