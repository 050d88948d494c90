// stream_back: the day of a file that is open, brought back in pieces of any length: the file may be longer than the buffer.
// It may use io, descriptors, lines_reading, resume_pieces, state, stream_feed and stream_source, and what these use. It promises that it is safe
// and ends; that the buffer always has room, so that a read of no bytes is the end; and, by what its reads give: where one fails it
// answers that not all could be read; where they come to the end, that what comes back, the answer, the session and the live orders, is that of
// all bytes by resume_law; and where a bad line is met first, that this is told. Of a text that is lent it is known what the reads give;
// of a descriptor the proof takes what was read.

#![tactic(auto)]

ghost use Rattle.std.specs.Prelude.{◌≤◌, ◌<◌, ◌≡◌, length, take, drop};
ghost use Rattle.terms.specs.Sizes.{line_room};
ghost use Rattle.state_law.specs.Opening.{fixed_session};
ghost use Rattle.engine_law.specs.Calls.{LongEnough};
ghost use Rattle.descriptors.specs.Counted.{GotWithin};
ghost use Rattle.resume_law.specs.Answers.{bad_at};
ghost use Rattle.resume_law.specs.Pieces.{BackAs, BackBehind, standing, BackFrom, back_to, Starts, coming_to, coming_end, stands_on};
ghost use Rattle.stream_law.specs.Sources.{Gives};
ghost use Rattle.stream_source.specs.Reads.{EndsWithin};
ghost use Rattle.stream_back.specs.Filled.{stopped_at, coming_after, ComesOn, RestAs, OpensAs, Ended, EndedBy, StartsAs};

use descriptors::Failed;
use descriptors::live::Live;
use lines_text_law::LineError;
use resume_law::{Back, BadLine, Coming};
use state::opening;
use state_law::Session;
use stream_law::Source;
use terms::{Refusal, Settings};

// What is kept from piece to piece, and where the source stands then.
#[derive(Clone, Copy)]
pub struct Piece {
    pub coming: Coming,
    pub from: Source,
}

// Nothing comes back.
fn refused(refusal: Refusal, place: usize) -> Back
    ensures { result ≡ back_to (bad_at refusal place) fixed_session }
{
    resume_pieces::back_to(Err(BadLine { refusal, place }), opening::fixed())
}

// ---- reads

fn coming_to(have: usize, before: usize, session: Session) -> Coming
    ensures { result ≡ coming_to have before session }
{
    Coming {
        have,
        before,
        back: resume_pieces::back_to(Ok(before), session),
        more: true,
    }
}

fn coming_end(back: Back) -> Coming
    ensures { result ≡ coming_end back }
{
    Coming {
        have: 0,
        before: 0,
        back,
        more: false,
    }
}

// Nothing more is to be read: so many bytes count.
fn stopped(before: usize, session: Session, read: bool) -> Coming
    ensures { result ≡ stopped_at before session read }
{
    coming_end(Back {
        answer: Ok(before),
        session,
        read,
    })
}

// What a read behind so many bytes that are kept comes to: at the end of the file these are dropped, and a read that failed is not its end.
fn after_read(got: Result<usize, Failed>, left: usize, before: usize, session: Session) -> Coming
    requires { EndsWithin left got }
    ensures { result ≡ coming_after got left before session }
{
    match got {
        Err(_) => stopped(before, session, false),
        Ok(0) => stopped(before, session, true),
        Ok(n) => coming_to(left + n, before, session),
    }
}

// Keeps the bytes that were not taken at the buffer's front, and reads once behind them.
fn read_rest(
    live: &Live,
    from: Source,
    given: &[u8],
    used: usize,
    have: usize,
    before: usize,
    session: Session,
    buf: &mut [u8],
) -> Piece
    requires used_le_have { (used ≤ have) × (have ≤ length buf.old) × (line_room < length buf.old) }
    requires starts { Starts (drop used (take have buf.old)) }
    ensures { RestAs given.now from before session (drop used (take have buf.old)) buf.new result }
{
    stream_feed::to_front(buf, used, have);
    let left = have - used;
    let read = stream_source::read_behind(live, from, given, left, buf);
    Piece {
        coming: after_read(read.got, left, before, session),
        from: read.from,
    }
}

// ---- all pieces

// Replays the bytes at the buffer's front, and reads the next ones behind what is left of them.
fn next_piece(
    live: &Live,
    from: Source,
    given: &[u8],
    h: Coming,
    buf: &mut [u8],
    buys: &mut [u64],
    sells: &mut [u64],
    room: &mut [u64],
) -> Piece
    requires long_enough { LongEnough buys.old sells.old room.old }
    requires have_in_bounds { (h.have ≤ length buf.old) × (line_room < length buf.old) }
    ensures { ComesOn given.now from h buf.old buys.old sells.old buf.new buys.new sells.new result }
{
    let bytes = &buf[..h.have];
    let p = resume_pieces::take_piece(bytes, h.before, h.back.session, buys, sells, room);
    if !p.more {
        return Piece {
            coming: coming_end(p.back),
            from,
        };
    }
    read_rest(
        live,
        from,
        given,
        p.used,
        h.have,
        p.before,
        p.back.session,
        buf,
    )
}

// Takes piece after piece, each behind the unfinished line of the last.
fn take_pieces(
    live: &Live,
    from: Source,
    given: &[u8],
    first: Coming,
    buf: &mut [u8],
    buys: &mut [u64],
    sells: &mut [u64],
    room: &mut [u64],
) -> Back
    requires long_enough { LongEnough buys.old sells.old room.old }
    requires have_in_bounds { (first.have ≤ length buf.old) × (line_room < length buf.old) }
    ensures { BackFrom (Gives given.now from) (stands_on buf.old buys.old sells.old first) buys.new sells.new result }
{
    let mut source = from;
    let mut h = first;
    for _turn in 0..u64::MAX {
        let piece = next_piece(live, source, given, h, buf, buys, sells, room);
        source = piece.from;
        h = piece.coming;
        if !h.more {
            return h.back;
        }
    }
    resume_pieces::unread()
}

// ---- the settings

// Goes on with the events behind a settings line that ends at `first`.
fn from_opening(
    live: &Live,
    from: Source,
    given: &[u8],
    session: Session,
    first: usize,
    end: usize,
    buf: &mut [u8],
    buys: &mut [u64],
    sells: &mut [u64],
    room: &mut [u64],
) -> Back
    requires long_enough { LongEnough buys.old sells.old room.old }
    requires first_le_end { (first ≤ end) × (end ≤ length buf.old) × (line_room < length buf.old) }
    ensures { BackFrom (Gives given.now from) (standing first session buys.old sells.old (drop first (take end buf.old))) buys.new sells.new result }
{
    stream_feed::to_front(buf, first, end);
    let h = coming_to(end - first, first, session);
    take_pieces(live, from, given, h, buf, buys, sells, room)
}

// The session of a whole settings line goes on with the events behind it, or the settings are refused.
fn from_settings(
    live: &Live,
    from: Source,
    given: &[u8],
    settings: Settings,
    first: usize,
    end: usize,
    buf: &mut [u8],
    buys: &mut [u64],
    sells: &mut [u64],
    room: &mut [u64],
) -> Back
    requires long_enough { LongEnough buys.old sells.old room.old }
    requires first_le_end { (first ≤ end) × (end ≤ length buf.old) × (line_room < length buf.old) }
    ensures { OpensAs (Gives given.now from) settings first (take end buf.old) buys.new sells.new result }
{
    let o = opening::begin(settings);
    let verdict = o.verdict;
    let session = o.session;
    match verdict {
        Ok(()) => from_opening(
            live, from, given, session, first, end, buf, buys, sells, room,
        ),
        Err(_) => refused(Refusal::LineRefused, 0),
    }
}

// Reads the settings line from the first bytes of the file, of which the buffer holds so many.
fn from_front(
    live: &Live,
    from: Source,
    given: &[u8],
    end: usize,
    buf: &mut [u8],
    buys: &mut [u64],
    sells: &mut [u64],
    room: &mut [u64],
) -> Back
    requires long_enough { LongEnough buys.old sells.old room.old }
    requires end_in_bounds { (end ≤ length buf.old) × (line_room < length buf.old) }
    requires ended { Ended given.now from end (length buf.old) }
    ensures { BackBehind (Gives given.now from) (take end buf.old) buys.new sells.new result }
{
    match lines_reading::read_settings(&buf[0..end]) {
        Ok(line) => from_settings(
            live, from, given, line.value, line.next, end, buf, buys, sells, room,
        ),
        Err(LineError::Unfinished) => refused(Refusal::LineUnfinished, 0),
        Err(LineError::Wrong(place)) => refused(Refusal::LineWrong, place),
    }
}

// Goes on with the first bytes of the file, more than a settings line can have, where they could be read.
fn from_filled(
    live: &Live,
    got: Result<usize, Failed>,
    from: Source,
    given: &[u8],
    buf: &mut [u8],
    buys: &mut [u64],
    sells: &mut [u64],
    room: &mut [u64],
) -> Back
    requires long_enough { LongEnough buys.old sells.old room.old × (line_room < length buf.old) }
    requires got_within { GotWithin (length buf.old) got × EndedBy given.now from got (length buf.old) }
    ensures { StartsAs (Gives given.now from) got buf.old buys.new sells.new result }
{
    match got {
        Err(_) => resume_pieces::unread(),
        Ok(end) => from_front(live, from, given, end, buf, buys, sells, room),
    }
}

// Fills the buffer with the first bytes of the file, and goes on from there.
fn from_start(
    live: &Live,
    from: Source,
    given: &[u8],
    buf: &mut [u8],
    buys: &mut [u64],
    sells: &mut [u64],
    room: &mut [u64],
) -> Back
    requires { LongEnough buys.old sells.old room.old × (line_room < length buf.old) }
    ensures { BackAs (Gives given.now from) buys.new sells.new result }
{
    let read = stream_source::fill(live, from, given, buf);
    from_filled(live, read.got, read.from, given, buf, buys, sells, room)
}

// Brings back the day of a file that is open, from its first byte on.
pub fn come_back(
    live: &Live,
    from: Source,
    given: &[u8],
    buys: &mut [u64],
    sells: &mut [u64],
    room: &mut [u64],
) -> Back
    requires { LongEnough buys.old sells.old room.old }
    ensures { BackAs (Gives given.now from) buys.new sells.new result }
{
    let mut buf = io::large_buffer();
    from_start(live, from, given, &mut buf, buys, sells, room)
}
