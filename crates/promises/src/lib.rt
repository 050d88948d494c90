// promises: what holds of any run of the engine, in the words of the demands, proved of the definitions. It has no code.
// It may use terms, tables and every law up to feed_law. Each file of specs/ states the promises of one subject, on any events; Runs.antt
// and Printed.antt state them for calls of which only the contracts are known. proofs/ proves them from the laws of the crates below.

#![tactic(auto)]
