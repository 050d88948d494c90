// records_law: records read back: which report six numbers stand for, or that they stand for none.
// It has no code and may use terms and tables. It promises: a report's record is read back as that report, and no other answer is right.

#![tactic(auto)]
