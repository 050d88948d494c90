// What a call of the C library came to, and when it is made again.
ghost use Rattle.std.specs.Prelude.{◌≡◌};
ghost use Rattle.descriptors.specs.Outcomes.{passes, outcome_by, is_again, got_by, SettledAs};

use crate::{Failed, Unmoved};
use std::thread;

// A signal interrupted the call; the other side is not ready.
const INTERRUPTED: i32 = 4;

const NOT_READY: i32 = 11;

// Whether a call that failed with this error may succeed later: a signal interrupted it, or the other side is not ready.
fn passes(error: i32) -> bool
    ensures { result ≡ passes error }
{
    error == INTERRUPTED || error == NOT_READY
}

// What a call on so many bytes came to, by what it answered: how many it moved, or its error.
fn outcome(answer: Result<usize, i32>, most: usize) -> Result<usize, Unmoved>
    ensures { result ≡ outcome_by answer most }
{
    match answer {
        Ok(count) => Ok(count.min(most)),
        Err(error) if passes(error) => Err(Unmoved::Again),
        Err(_) => Err(Unmoved::Failed),
    }
}

// Whether a call is to be made again.
fn is_again(outcome: Result<usize, Unmoved>) -> bool
    ensures { result ≡ is_again outcome }
{
    matches!(outcome, Err(Unmoved::Again))
}

// Makes a call on so many bytes, and makes it again for as long as it is to be; other programs run between.
pub fn settled<F: FnMut() -> Result<usize, i32>>(mut call: F, most: usize) -> Result<usize, Unmoved>
    requires { F.IsAlwaysCallable call }
    ensures { SettledAs most result }
{
    for _ in 0..u64::MAX {
        let outcome = outcome(call(), most);
        if !is_again(outcome) {
            return outcome;
        }
        thread::yield_now();
    }
    Err(Unmoved::Failed)
}

// What is answered of a call: the count that it moved, or that it failed.
pub fn got_of(outcome: Result<usize, Unmoved>) -> Result<usize, Failed>
    ensures { result ≡ got_by outcome }
{
    outcome.map_err(|_| Failed)
}
