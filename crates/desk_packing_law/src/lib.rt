// desk_packing_law: answers, settings, sessions, events and runs of the program as numbers, for desk_packing, desk_answers and desk_runs.
// It has no code and may use terms, tables, rules_law, state_law and feed_law. It promises: packing and unpacking are inverse to each other,
// whatever follows the numbers; numbers that are no session's, or of another layout, are the paper's fixed session, numbers that are no
// event's a clock event that no session accepts, numbers that are no run's a run that is over; an answer gives back its code and its count.

#![tactic(auto)]
