// tables: the numbers that a caller lends. A side's table holds orders of three numbers each, the report room holds records of six.
// It may use terms. It promises: the contract of each call gives the lent numbers afterwards by an equation; behind the live orders a side's
// table is then zero, and whatever lies past the table is as it was.

#![tactic(auto)]

pub mod flat;
pub mod lengths;
pub mod orders;
pub mod room;
pub mod side;
