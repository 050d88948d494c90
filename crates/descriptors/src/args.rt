// The arguments that a program was started with.
ghost use Rattle.std.specs.Prelude.{◌≤◌, length};

use std::env::{Env, FillError};

// Whether there is an argument of this number, however long it is.
fn is_there(rt: &HostRuntime, i: usize, buf: &mut [u8]) -> bool {
    match rt.arg(i, buf) {
        Ok(_) => true,
        Err(FillError::TooLong) => true,
        Err(FillError::NotPresent) => false,
    }
}

// How many there are, the program's own name among them.
pub fn count(rt: &HostRuntime) -> usize {
    let mut buf = [0u8; 1];
    for i in 0..usize::MAX {
        if !is_there(rt, i, &mut buf) {
            return i;
        }
    }
    usize::MAX
}

// Puts an argument at the start of a buffer. Answers its length, or 0 where it is missing or longer than the buffer.
pub fn arg(rt: &HostRuntime, i: usize, buf: &mut [u8]) -> usize
    ensures { result ≤ length buf.new }
{
    match rt.arg(i, buf) {
        Ok(n) => n,
        Err(_) => 0,
    }
}
