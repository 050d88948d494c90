// descriptors: reads bytes from a descriptor and writes them to one. A call that was interrupted, or that found the other side not ready, is
// made again; any other failure is reported.
// It may use std. It promises that it is safe and ends; that what a call came to is what its answer says
// (`outcome_by`), that an answer is not that of a call which is to be made again (`SettledAs`), and is what that says (`got_by`, `taken_by`: a
// read that failed is answered as one); and that no count is more than there is room for. That it is the call that was made of which is
// answered, and which bytes are read and written, no contract can say: those of std name neither.

#![tactic(auto)]

ghost use Rattle.std.specs.Prelude.{◌≡◌};
ghost use Rattle.descriptors.specs.declared.LoadError.{LoadError};

pub mod args;
mod calls;
pub mod live;
pub mod reading;
pub mod writing;

// The descriptors of standard input and standard output.
pub const INPUT: i32 = 0;

pub const OUTPUT: i32 = 1;

// A call failed; where it was one of `Live`, `Live::last_error` has the error's number.
#[derive(Clone, Copy, Debug, PartialEq, Eq)]
pub struct Failed;

// Why a call moved no bytes: it failed; or it is to be made again.
#[derive(Clone, Copy, Debug, PartialEq, Eq)]
pub enum Unmoved {
    Failed,
    Again,
}

// Why a whole input was not read: there are more bytes than fit; or a read failed.
#[derive(Clone, Copy, Debug, PartialEq, Eq)]
pub enum LoadError {
    TooLong,
    Failed,
}

impl From<Failed> for LoadError {
    ghost from_gives = { λ _ e. e ≡ LoadError.Failed };

    fn from(_failed: Failed) -> LoadError {
        LoadError::Failed
    }
}
