// cases: what the programs that run cases have in common: lines of nine numbers are read, and numbers printed; cases that are files are
// opened by their names, and told and counted by how they ended.
// It may use io and descriptors. It promises that it is safe and ends, that reading a line always moves on, and
// that the name of a case gets its ending just where there is room for it.

#![tactic(auto)]

pub mod counts;
pub mod files;
pub mod nine;
pub mod print;
