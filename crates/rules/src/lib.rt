// rules: what the circulars compute, on plain numbers: slabs and bands, the growth of a price, the reference and its range, the
// mark of a market order, the close price and the next base.
// It may use terms and rules_law. It promises: each function's result IS the definition of rules_law that stands beside document 01's
// words, and nothing overflows for any settings that 12 and 13 let pass.

#![tactic(auto)]

pub mod close;
pub mod growth;
pub mod mark;
pub mod reference;
pub mod slabs;
