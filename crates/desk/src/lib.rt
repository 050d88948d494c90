// desk: the boundary for apps: functions on plain numbers and bytes, which the app lends and keeps. desk_c hands them to C.
// It may use every crate below it. It promises, for any content and any length of every lent slice: the answer, and each lent number and
// byte afterwards, are those of desk_law; a refusal writes nothing, except that a refused opening writes the fixed session, and a refused
// resume the fixed session, its place and, where scratch is lent, zeros in it. Whatever the refusal, the tables are as lent.

#![tactic(auto)]

pub mod calls;
pub mod line_calls;
pub mod resumes;
pub mod standings;
pub mod texts;
