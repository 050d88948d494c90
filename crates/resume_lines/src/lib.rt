// resume_lines: the event lines of saved bytes, applied one after the other, up to the first that is unfinished, wrong or refused.
// It may use engine, lines_reading and state, and what these use. It promises, of any bytes and of tables and a room that are long enough: the
// answer, the session and, where an event was among the lines, both tables are those of resume_law.

#![tactic(auto)]

ghost use Rattle.std.specs.Prelude.{◌+◌, ◌^◌, ◌≤◌, ◌<◌, false, ◌≡◌, length};
ghost use Rattle.state_law.specs.Opening.{fixed_session};
ghost use Rattle.resume_law.specs.Answers.{bad_at};
ghost use Rattle.engine_law.specs.Calls.{LongEnough};
ghost use Rattle.resume_law.specs.code.Replaying.{AppliedLong, line_for, line_replayed_to, place_in, EventReplayed, LineTold, LineFrom, replayed_to, stopped_at, held_from, LinesReplayed, Halts};

use engine::apply;
use engine_law::{Answer, Applied};
use lines_text_law::LineError;
use resume_law::{BadLine, Comeback, Halt, Halted, LineReplayed, Replayed, SavedLine};
use state::opening;
use state_law::Session;
use terms::{Event, Refusal};

fn line_replayed(line: SavedLine, session: Session) -> LineReplayed
    ensures { result ≡ line_replayed_to line session }
{
    LineReplayed { line, session }
}

// What became of a line of so many bytes, by the engine's answer.
fn line_for(answer: Answer, used: usize) -> SavedLine
    ensures { result ≡ line_for answer used }
{
    match answer {
        Ok(_) => Ok(used),
        Err(_) => Err(Halt::Refused),
    }
}

// Applies an event on slices that are long enough for any.
fn apply_long(
    session: Session,
    event: Event,
    buys: &mut [u64],
    sells: &mut [u64],
    room: &mut [u64],
) -> Applied
    requires { LongEnough buys.old sells.old room.old }
    ensures { AppliedLong session event buys.old sells.old room.old buys.new sells.new room.new result }
{
    apply::apply(session, event, buys, sells, room)
}

// A whole line of an event: accepted, or refused by the engine. Its reports are dropped.
fn replay_event(
    session: Session,
    event: Event,
    used: usize,
    buys: &mut [u64],
    sells: &mut [u64],
    room: &mut [u64],
) -> LineReplayed
    requires { LongEnough buys.old sells.old room.old }
    ensures { EventReplayed session event used buys.old sells.old buys.new sells.new result }
{
    let a = apply_long(session, event, buys, sells, room);
    let answer = a.answer;
    let after = a.session;
    LineReplayed {
        line: line_for(answer, used),
        session: after,
    }
}

// The line that the bytes begin with.
fn replay_line(
    session: Session,
    bytes: &[u8],
    buys: &mut [u64],
    sells: &mut [u64],
    room: &mut [u64],
) -> LineReplayed
    requires { LongEnough buys.old sells.old room.old }
    ensures { LineTold session bytes.now buys.old sells.old buys.new sells.new result }
{
    match lines_reading::read_event(bytes) {
        Ok(line) => replay_event(session, line.value, line.next, buys, sells, room),
        Err(LineError::Unfinished) => line_replayed(Err(Halt::Unfinished), session),
        Err(LineError::Wrong(place)) => line_replayed(Err(Halt::Wrong(place)), session),
    }
}

// The line that begins at a place.
fn line_at(
    session: Session,
    bytes: &[u8],
    at: usize,
    buys: &mut [u64],
    sells: &mut [u64],
    room: &mut [u64],
) -> LineReplayed
    requires { LongEnough buys.old sells.old room.old × (at ≤ length bytes.now) }
    ensures { LineFrom session bytes.now at buys.old sells.old buys.new sells.new result }
{
    replay_line(session, &bytes[at..], buys, sells, room)
}

fn replayed(answer: Comeback, session: Session, moved: bool) -> Replayed
    ensures { result ≡ replayed_to answer session moved }
{
    Replayed {
        answer,
        session,
        moved,
    }
}

// A refusal: the fixed session, and no table is to be written.
fn refused_at(refusal: Refusal, place: usize) -> Replayed
    ensures { result ≡ replayed_to (bad_at refusal place) fixed_session false }
{
    replayed(Err(BadLine { refusal, place }), opening::fixed(), false)
}

// What is answered where a line at a place is not applied.
fn stopped(halt: Halt, at: usize, session: Session, moved: bool) -> Replayed
    requires { at + place_in halt < 2 ^ 64 }
    ensures { result ≡ stopped_at halt at session moved }
{
    match halt {
        Halt::Refused => refused_at(Refusal::LineRefused, at),
        Halt::Unfinished => replayed(Ok(at), session, moved),
        Halt::Wrong(place) => {
            let found = at + place;
            refused_at(Refusal::LineWrong, found)
        }
    }
}

// Applies the event lines from a place on, one after the other, up to the first that is not applied.
fn until_halted(
    bytes: &[u8],
    first: usize,
    session: Session,
    buys: &mut [u64],
    sells: &mut [u64],
    room: &mut [u64],
) -> Halted
    requires { LongEnough buys.old sells.old room.old × (first ≤ length bytes.now) }
    ensures { Halts bytes.now (held_from bytes.now first session buys.old sells.old) buys.new sells.new result }
{
    let mut now = session;
    let mut at = first;
    let mut moved = false;
    // no `for` is plainer: the place goes on by the length of each line
    while at < bytes.len() {
        let t = line_at(now, bytes, at, buys, sells, room);
        now = t.session;
        match t.line {
            Ok(used) => {
                at += used;
                moved = true;
            }
            Err(halt) => {
                return Halted {
                    halt,
                    at,
                    session: now,
                    moved,
                };
            }
        }
    }
    Halted {
        halt: Halt::Unfinished,
        at,
        session: now,
        moved,
    }
}

// All event lines from a place on, on tables and in a room that are lent for it.
pub fn replay_lines(
    bytes: &[u8],
    first: usize,
    session: Session,
    buys: &mut [u64],
    sells: &mut [u64],
    room: &mut [u64],
) -> Replayed
    requires { LongEnough buys.old sells.old room.old × (first ≤ length bytes.now) }
    ensures { LinesReplayed bytes.now first session buys.old sells.old buys.new sells.new result }
{
    let h = until_halted(bytes, first, session, buys, sells, room);
    stopped(h.halt, h.at, h.session, h.moved)
}
