// desk_law: the boundary for apps: what each of its calls answers, and what it leaves in the lent numbers and bytes.
// It has no code and may use terms, tables and the laws below it. It promises: each call is determined, and what a call writes into an
// app's numbers is what the next call reads there.

#![tactic(auto)]
