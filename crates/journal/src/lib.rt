// journal: saved bytes walked line by line.
// It may use terms, lines_text_law, lines_reading_law and lines_reading. It promises, for any bytes and any place: what the reader of events
// answers on the bytes from that place on, or on no bytes where the place is past their end.

#![tactic(auto)]

ghost use Rattle.std.specs.Prelude.{◌≡◌};
ghost use Rattle.lines_text_law.specs.Reading.{answered};
ghost use Rattle.lines_reading_law.specs.Walk.{read_at};

use lines_text_law::{LineError, Parsed};
use terms::Event;

// A walker: the caller's bytes, and a place in them.
#[derive(Clone, Copy)]
pub struct Walker<'a> {
    pub bytes: &'a [u8],
    pub at: usize,
}

// What the reader answers on the bytes from a place on.
pub fn event_at(bytes: &[u8], at: usize) -> Result<Parsed<Event>, LineError>
    ensures { answered result ≡ read_at bytes.now at }
{
    lines_reading::read_event(bytes.get(at..).unwrap_or(&[]))
}

// A walker at the start of the bytes.
pub fn new<'a>(bytes: &'a [u8]) -> Walker<'a>
    ensures { (result.bytes ≡ bytes.entry) × (result.at ≡ 0) }
{
    Walker { bytes, at: 0 }
}

// What the reader answers at the walker's place.
pub fn step<'a>(w: Walker<'a>) -> Result<Parsed<Event>, LineError>
    ensures { answered result ≡ read_at w.entry.bytes.now w.entry.at }
{
    event_at(w.bytes, w.at)
}

// The walker moved to another place; after a line, that is the place past it.
pub fn moved<'a>(w: Walker<'a>, at: usize) -> Walker<'a>
    ensures { (result.bytes ≡ w.entry.bytes) × (result.at ≡ at) }
{
    Walker { bytes: w.bytes, at }
}

// A walker's step at a place of plain bytes, for callers that hold no walker.
pub fn line_at(bytes: &[u8], at: usize) -> Result<Parsed<Event>, LineError>
    ensures { answered result ≡ read_at bytes.now at }
{
    step(moved(new(bytes), at))
}
