// soundness_law: what a sound session is, by document 01's paragraph, and the facts that the engine computes with.
// It has no code and may use terms, tables and the laws below it. It promises: an opened session is sound, its numbers stay sound under clock
// steps, trades and the setting of a field, and what the code computes from a sound session stays within its bounds.

#![tactic(auto)]
