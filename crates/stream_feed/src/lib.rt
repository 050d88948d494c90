// stream_feed: the lines of bytes that were read are taken, and what they come to goes to the sink: what many lines print, in one go; or, where
// the day is kept, line by line, what is to be saved of a line before what it prints. It knows of no descriptor but through the sink.
// It may use feed and what it uses, stream_law, stream_line and stream_sink. It promises, of any bytes and any expected text: what was sent
// and what is still to be said make up what the program says; all whole lines are taken, and after a failure none; and at the end all is sent
// that the program says.

#![tactic(auto)]

ghost use Rattle.std.specs.Prelude.{◌≤◌, ◌≡◌, length, drop};
ghost use Rattle.terms.specs.Sizes.{line_room};
ghost use Rattle.feed_law.specs.Texts.{text_most};
ghost use Rattle.feed_law.specs.Turns.{printing};
ghost use Rattle.stream_law.specs.Sinks.{SentAs};
ghost use Rattle.engine_law.specs.Calls.{LongTables, LongEnough};
ghost use Rattle.stream_law.specs.Streams.{says_of, is_full, more_after, holding, HandsOn, OverAs, reading_after, ToFront, TakesIn, end_by, EndsAs};

use descriptors::live::Live;
use feed::lines;
use feed_law::{Run, Stage, Stop};
use feed_prints::printing;
use stream_law::{Buffered, Handed, Mode, Reading, Sink};
use tables::lengths;
use terms::sizes;

// The output room holds the most that two lines of input can print, so that the output of many lines goes out in one write.
const OUT: usize = lines::TEXT * 2;

// ---- one call of feed

// Whether feed stopped because the output room must be emptied.
fn is_full(stop: Stop) -> bool
    ensures { result ≡ is_full stop }
{
    matches!(stop, Stop::Full)
}

fn has_more(stop: Stop, to: Sink) -> bool
    ensures { result ≡ more_after stop to }
{
    is_full(stop) && stream_sink::is_open(to)
}

// Calls feed once, in lent rooms, and sends on what it prints.
fn hand_in(
    live: &Live,
    to: Sink,
    expected: &[u8],
    run: Run,
    bytes: &[u8],
    buys: &mut [u64],
    sells: &mut [u64],
    room: &mut [u64],
    out: &mut [u8],
) -> Handed
    requires long_enough { LongEnough buys.old sells.old room.old }
    requires text_most_in_bounds { text_most ≤ length out.old }
    ensures { HandsOn printing expected.now (holding run buys.old sells.old bytes.now) to buys.new sells.new result }
{
    let t = lines::take_lines(run, bytes, buys, sells, room, out);
    let sent = stream_sink::send(live, to, expected, &out[..t.wrote]);
    Handed {
        run: t.run,
        used: t.used,
        to: sent,
        more: has_more(t.stop, sent),
    }
}

// Calls feed once on the bytes from `at` on, in rooms in which all is zero before the call.
fn hand_some(
    live: &Live,
    to: Sink,
    expected: &[u8],
    run: Run,
    bytes: &[u8],
    at: usize,
    buys: &mut [u64],
    sells: &mut [u64],
) -> Handed
    requires long_tables { LongTables buys.old sells.old }
    requires at_in_bounds { at ≤ length bytes.now }
    ensures { HandsOn printing expected.now (holding run buys.old sells.old (drop at bytes.now)) to buys.new sells.new result }
{
    let mut room = [0u64; lengths::ROOM];
    let mut out = [0u8; OUT];
    hand_in(
        live,
        to,
        expected,
        run,
        &bytes[at..],
        buys,
        sells,
        &mut room,
        &mut out,
    )
}

// Hands on lines of the bytes from `at` on: as many as feed takes at once; or one, where the day is kept.
fn hand_next(
    live: &Live,
    mode: Mode,
    to: Sink,
    expected: &[u8],
    run: Run,
    bytes: &[u8],
    at: usize,
    buys: &mut [u64],
    sells: &mut [u64],
) -> Handed
    requires long_tables { LongTables buys.old sells.old }
    requires at_in_bounds { at ≤ length bytes.now }
    ensures { HandsOn (says_of mode) expected.now (holding run buys.old sells.old (drop at bytes.now)) to buys.new sells.new result }
{
    match mode {
        Mode::Bare => hand_some(live, to, expected, run, bytes, at, buys, sells),
        Mode::Keeping(file) => {
            stream_line::keep_line(live, to, expected, file, run, bytes, at, buys, sells)
        }
    }
}

// ---- all whole lines

// Hands all whole lines over, as long as more may be sent.
fn hand_over(
    live: &Live,
    mode: Mode,
    to: Sink,
    expected: &[u8],
    run: Run,
    bytes: &[u8],
    buys: &mut [u64],
    sells: &mut [u64],
) -> Handed
    requires { LongTables buys.old sells.old }
    ensures { OverAs (says_of mode) expected.now (holding run buys.old sells.old bytes.now) to buys.new sells.new result }
{
    let mut now = run;
    let mut sink = to;
    let mut at: usize = 0;
    // no `for`: each turn goes on by as many bytes as the lines that were taken have
    while at < bytes.len() {
        let h = hand_next(live, mode, sink, expected, now, bytes, at, buys, sells);
        now = h.run;
        sink = h.to;
        at += h.used;
        if !h.more {
            break;
        }
    }
    Handed {
        run: now,
        used: at,
        to: sink,
        more: false,
    }
}

// ---- a buffer

// Moves the bytes from `start` to `end` to the front of the buffer.
pub fn to_front(buf: &mut [u8], start: usize, end: usize)
    requires { (start ≤ end) × (end ≤ length buf.old) }
    ensures { ToFront buf.old start end buf.new }
{
    buf.copy_within(start..end, 0);
}

// Whether to read on: not where the run is over or the sink is shut.
fn reading_after(stage: Stage, to: Sink) -> Reading
    ensures { result ≡ reading_after stage to }
{
    match stage {
        Stage::Awaiting | Stage::Trading if stream_sink::is_open(to) => Reading::On,
        _ => Reading::Done,
    }
}

// Hands over what stands in the buffer before `end`, and keeps the bytes that are left at its front.
pub fn take_in(
    live: &Live,
    mode: Mode,
    to: Sink,
    expected: &[u8],
    run: Run,
    buf: &mut [u8],
    end: usize,
    buys: &mut [u64],
    sells: &mut [u64],
) -> Buffered
    requires long_tables { LongTables buys.old sells.old }
    requires end_in_bounds { end ≤ length buf.old }
    ensures { TakesIn (says_of mode) expected.now run buf.old end buys.old sells.old to buf.new buys.new sells.new result }
{
    let h = hand_over(live, mode, to, expected, run, &buf[..end], buys, sells);
    to_front(buf, h.used, end);
    Buffered {
        run: h.run,
        have: end - h.used,
        to: h.to,
        reading: reading_after(h.run.stage, h.to),
    }
}

// ---- the end of the input

// Sends what the end prints; where the day is kept, as what is shown.
fn send_end(live: &Live, mode: Mode, to: Sink, expected: &[u8], text: &[u8]) -> Sink
    ensures { SentAs expected.now to (end_by mode text.now) result }
{
    match mode {
        Mode::Bare => stream_sink::send(live, to, expected, text),
        Mode::Keeping(_) => stream_sink::show(live, to, expected, text),
    }
}

// Sends what the end of the input says where no whole line is left.
fn end_with(
    live: &Live,
    mode: Mode,
    to: Sink,
    expected: &[u8],
    stage: Stage,
    rest: &[u8],
    out: &mut [u8],
) -> Sink
    requires { line_room ≤ length out.old }
    ensures { SentAs expected.now to ((says_of mode).end stage (length rest.now)) result }
{
    let n = printing::tell_end(stage, rest.len(), out);
    send_end(live, mode, to, expected, &out[..n])
}

fn tell_end(live: &Live, mode: Mode, to: Sink, expected: &[u8], stage: Stage, rest: &[u8]) -> Sink
    ensures { SentAs expected.now to ((says_of mode).end stage (length rest.now)) result }
{
    let mut line = [0u8; sizes::LINE];
    end_with(live, mode, to, expected, stage, rest, &mut line)
}

// Ends the input: takes the lines that are left, and sends all that is still to be said.
pub fn ending(
    live: &Live,
    mode: Mode,
    to: Sink,
    expected: &[u8],
    run: Run,
    rest: &[u8],
    buys: &mut [u64],
    sells: &mut [u64],
) -> Sink
    requires { LongTables buys.old sells.old }
    ensures { EndsAs (says_of mode) expected.now (holding run buys.old sells.old rest.now) to result }
{
    let h = hand_over(live, mode, to, expected, run, rest, buys, sells);
    tell_end(live, mode, h.to, expected, h.run.stage, &rest[h.used..])
}
