// The file of a day: bytes are saved in it, and it is cut; each with a wait until that has reached the disk.
ghost use Rattle.std.specs.Prelude.{◌≡◌};
ghost use Rattle.stream_law.specs.Sinks.{SentAs, kept_by, length_of, settled, saved_part, ShortAs, CutAs};

use crate::{comparing, handing};
use descriptors::Failed;
use descriptors::live::Live;
use stream_law::{Place, Sink};

// The mark of a wait for the disk.
const DISK: u8 = b'|';

// How the sink stands by whether the file has done what it was asked.
fn kept(status: Result<(), Failed>) -> Sink
    ensures { result ≡ kept_by status }
{
    match status {
        Ok(()) => Sink::Print,
        Err(_) => Sink::Unsaved,
    }
}

// Waits until all that was handed to the file has reached the disk; a comparison holds the mark of that.
fn settle(live: &Live, to: Sink, expected: &[u8], file: i32) -> Sink
    ensures { SentAs expected.now to settled result }
{
    match to {
        Sink::Print => kept(live.settle(file)),
        Sink::Match(at) => comparing::hold_byte(expected, at, DISK),
        shut => shut,
    }
}

// Saves some bytes: appends them to the file, and waits until they have reached the disk. No bytes are not handed at all.
pub fn save(live: &Live, to: Sink, expected: &[u8], file: i32, bytes: &[u8]) -> Sink
    ensures { SentAs expected.now to (saved_part bytes.now) result }
{
    if bytes.is_empty() {
        return to;
    }
    let handed = handing::hand(live, to, expected, Place::File(file), bytes);
    settle(live, handed, expected, file)
}

// A number of bytes as the C library takes it; a larger one is -1, at which it fails.
fn length_of(count: usize) -> i64
    ensures { result ≡ length_of count }
{
    i64::try_from(count).unwrap_or(-1)
}

// Cuts the file to its first bytes; a comparison passes over as many bytes.
fn shorten(live: &Live, to: Sink, expected: &[u8], file: i32, count: usize) -> Sink
    ensures { ShortAs expected.now to count result }
{
    match to {
        Sink::Print => kept(live.cut(file, i128::from(length_of(count)))),
        Sink::Match(at) => comparing::pass(expected, at, count),
        shut => shut,
    }
}

// Cuts the file to its first bytes, and waits until that has reached the disk.
pub fn cut(live: &Live, to: Sink, expected: &[u8], file: i32, count: usize) -> Sink
    ensures { CutAs expected.now to count result }
{
    let short = shorten(live, to, expected, file, count);
    settle(live, short, expected, file)
}
