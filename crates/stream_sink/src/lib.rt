// stream_sink: where a run's bytes go: to the file of a day and to standard output, or against an expected text that is lent.
// It may use descriptors and the definitions of stream_law. It promises, of any bytes: a comparison sees every call that a live sink makes,
// in its order (the bytes of a place behind its mark, write by write until all are taken, each wait for the disk, and the cut) and answers what
// stream_law says; a sink that met a difference or a call that failed stays as it is, and makes no other; and what a call came to is said of its
// answer by an equation. That a live sink makes the call that a comparison sees is one line for each, in `write_once`, `settle` and `shorten`,
// by descriptors::live. The contracts of std name no bytes, so none can say it of those three; days_live runs them, and host/calls holds them to the logs.

#![tactic(auto)]

mod comparing;
pub mod files;
mod handing;

ghost use Rattle.std.specs.Prelude.{◌≡◌};
ghost use Rattle.stream_law.specs.Sinks.{SentAs, is_open, shown_part, finish_of};

use descriptors::live::Live;
use stream_law::{Finish, Place, Sink};

// ---- bytes are handed on

// Sends some bytes to standard output.
pub fn send(live: &Live, to: Sink, expected: &[u8], bytes: &[u8]) -> Sink
    ensures { SentAs expected.now to bytes.now result }
{
    handing::write_all(live, to, expected, Place::Output, bytes)
}

// Shows some bytes: prints them on standard output.
pub fn show(live: &Live, to: Sink, expected: &[u8], bytes: &[u8]) -> Sink
    ensures { SentAs expected.now to (shown_part bytes.now) result }
{
    if bytes.is_empty() {
        return to;
    }
    handing::hand(live, to, expected, Place::Output, bytes)
}

// ---- the end

// Whether more may be sent.
pub fn is_open(to: Sink) -> bool
    ensures { result ≡ is_open to }
{
    matches!(to, Sink::Print | Sink::Match(_))
}

// The end of a run that sends no more.
pub fn finish(to: Sink, expected: &[u8]) -> Finish
    ensures { result ≡ finish_of expected.now to }
{
    match to {
        Sink::Print => Finish::Printed,
        Sink::Match(at) if at == expected.len() => Finish::Same,
        Sink::Match(_) | Sink::Differs => Finish::Differs,
        Sink::Unsaved => Finish::Unsaved,
        Sink::Lost => Finish::Unwritten,
    }
}
