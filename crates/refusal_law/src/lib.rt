// refusal_law: document 01's table of refusals, 2 to 11: the first row that applies to an event on a day.
// It has no code and may use terms, tables and the laws below it. It promises: the rows stand in the order of the paper's numbers, and an
// event that no row refuses has passed each of them.

#![tactic(auto)]
