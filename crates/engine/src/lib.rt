// engine: the public calls on a session: apply, the view of its live orders, and where it stands (begin is state's).
// It may use every crate below it. It promises, of any session, event, tables and room: the answer, the session and each lent
// number afterwards are those of engine_law; a refusal changes nothing; time comes from the events alone.
// Here and in all crates that write them, both tables and the room are three parameters: a struct with `&mut` fields would want, in every
// contract, a clause that it holds the same slices afterwards.

#![tactic(auto)]

pub mod apply;
pub mod looking;
pub mod standings;
