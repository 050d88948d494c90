// Bytes are handed on until all are taken, or the sink is shut; and a place is handed them behind its mark.
ghost use Rattle.std.specs.Prelude.{◌≡◌, ◌∷◌, length};
ghost use Rattle.stream_law.specs.Sinks.{matched, SentAs, descriptor_of, failed_at, took_by, held_by, WroteAs, mark_of, mark_by};

use crate::{comparing, is_open};
use descriptors::live::Live;
use descriptors::writing;
use stream_law::{Place, Sink, Wrote};

// The mark of what is saved, and of what is shown.
const SAVED: u8 = b'>';

const SHOWN: u8 = b'<';

// The descriptor of a place.
fn descriptor(place: Place) -> i32
    ensures { result ≡ descriptor_of place }
{
    match place {
        Place::File(fd) => fd,
        Place::Output => descriptors::OUTPUT,
    }
}

// How the sink stands that could not hand a place its bytes.
fn failed(place: Place) -> Sink
    ensures { result ≡ failed_at place }
{
    match place {
        Place::File(_) => Sink::Unsaved,
        Place::Output => Sink::Lost,
    }
}

// What a write came to that took so many bytes; none are a failure.
fn took(place: Place, taken: usize) -> Wrote
    ensures { result ≡ took_by place taken }
{
    if taken == 0 {
        return none(failed(place));
    }
    Wrote {
        to: Sink::Print,
        taken,
    }
}

// A comparison takes all bytes at once.
fn held(expected: &[u8], at: usize, bytes: &[u8]) -> Wrote
    ensures { result ≡ held_by (matched expected.now at bytes.now) (length bytes.now) }
{
    Wrote {
        to: comparing::hold(expected, at, bytes),
        taken: bytes.len(),
    }
}

// A sink that is shut takes none.
fn none(to: Sink) -> Wrote
    ensures { result ≡ held_by to 0 }
{
    Wrote { to, taken: 0 }
}

// Hands on the first bytes: as many as one write takes.
fn write_once(live: &Live, to: Sink, expected: &[u8], place: Place, bytes: &[u8]) -> Wrote
    ensures { WroteAs expected.now to bytes.now result }
{
    match to {
        Sink::Print => took(place, writing::write_some(live, descriptor(place), bytes)),
        Sink::Match(at) => held(expected, at, bytes),
        shut => none(shut), // what could not be saved is not shown
    }
}

// Hands on all bytes, write by write.
pub fn write_all(live: &Live, to: Sink, expected: &[u8], place: Place, bytes: &[u8]) -> Sink
    ensures { SentAs expected.now to bytes.now result }
{
    let mut sink = to;
    let mut at: usize = 0;
    // no `for`: each turn goes on by as many bytes as one write took
    while at < bytes.len() {
        let wrote = write_once(live, sink, expected, place, &bytes[at..]);
        sink = wrote.to;
        if !is_open(sink) {
            return sink;
        }
        at += wrote.taken;
    }
    sink
}

// The mark of what a place is handed.
fn mark_of(place: Place) -> u8
    ensures { result ≡ mark_of place }
{
    match place {
        Place::File(_) => SAVED,
        Place::Output => SHOWN,
    }
}

// A comparison holds the mark of a place; nothing else has marks.
fn mark(to: Sink, expected: &[u8], place: Place) -> Sink
    ensures { result ≡ mark_by expected.now place to }
{
    match to {
        Sink::Match(at) => comparing::hold_byte(expected, at, mark_of(place)),
        other => other,
    }
}

// Hands a place some bytes, behind their mark.
pub fn hand(live: &Live, to: Sink, expected: &[u8], place: Place, bytes: &[u8]) -> Sink
    ensures { SentAs expected.now to (mark_of place ∷ bytes.now) result }
{
    write_all(live, mark(to, expected, place), expected, place, bytes)
}
