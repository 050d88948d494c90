// Writes bytes to a descriptor.
ghost use Rattle.std.specs.Prelude.{◌≤◌, ◌≡◌, length};
ghost use Rattle.descriptors.specs.Outcomes.{taken_by};

use crate::live::Live;
use crate::{Unmoved, calls};

// How many bytes a write has taken, by what it came to.
fn taken_of(outcome: Result<usize, Unmoved>) -> usize
    ensures { result ≡ taken_by outcome }
{
    outcome.unwrap_or(0)
}

// Writes once, as soon as some bytes are taken. Answers how many were taken, 0 where the write failed.
pub fn write_some(live: &Live, fd: i32, bytes: &[u8]) -> usize
    ensures { result ≤ length bytes.now }
{
    taken_of(calls::settled(|| live.write(fd, bytes), bytes.len()))
}
