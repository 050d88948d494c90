// One line of a run is taken.
ghost use Rattle.std.specs.Prelude.{◌≤◌, ◌≡◌, length};
ghost use Rattle.terms.specs.Sizes.{line_room};
ghost use Rattle.feed_law.specs.Texts.{text_most, most_at};
ghost use Rattle.feed_law.specs.Feeds.{turned_to, BadTurned, OpenTurned, WholeTurned, SettingsTurned, EventTurned, TurnTaken};

use engine::apply;
use feed_law::{Run, Stage, Turned};
use feed_prints::printing;
use lines_text_law::LineError;
use state::opening;
use state_law::Session;
use terms::{Event, Refusal, Settings};

// The answer about a line: where the run stands after it, how many bytes were taken, how many of them are to be saved, and how many printed.
fn turned(stage: Stage, session: Session, used: usize, saves: usize, wrote: usize) -> Turned
    ensures { result ≡ turned_to stage session used saves wrote }
{
    Turned {
        run: Run { stage, session },
        used,
        saves,
        wrote,
    }
}

// Tells a bad line; the run is over.
fn bad_line(session: Session, place: usize, out: &mut [u8]) -> Turned
    requires { line_room ≤ length out.old }
    ensures { BadTurned session place out.old out.new result }
{
    let wrote = printing::tell_bad(Refusal::LineWrong, place, out);
    turned(Stage::Over, session, 0, 0, wrote)
}

// Opens the session of a whole line of settings, or tells that they are refused and ends the run.
fn opens(settings: Settings, used: usize, out: &mut [u8]) -> Turned
    requires { line_room ≤ length out.old }
    ensures { OpenTurned settings used out.old out.new result }
{
    let o = opening::begin(settings);
    let verdict = o.verdict;
    let opened = o.session;
    match verdict {
        Ok(()) => turned(Stage::Trading, opened, used, used, 0),
        Err(refusal) => {
            let wrote = printing::tell_bad(refusal, 0, out);
            turned(Stage::Over, opened, used, 0, wrote)
        }
    }
}

// Takes the line of settings with which a run begins.
fn settings_line(session: Session, bytes: &[u8], out: &mut [u8]) -> Turned
    requires { line_room ≤ length out.old }
    ensures { SettingsTurned session bytes.now out.old out.new result }
{
    match lines_reading::read_settings(bytes) {
        Ok(line) => opens(line.value, line.next, out),
        Err(LineError::Unfinished) => turned(Stage::Awaiting, session, 0, 0, 0),
        Err(LineError::Wrong(place)) => bad_line(session, place, out),
    }
}

// Applies the event of a whole line, and prints its reports or its refusal.
fn goes(
    session: Session,
    event: Event,
    used: usize,
    buys: &mut [u64],
    sells: &mut [u64],
    room: &mut [u64],
    out: &mut [u8],
) -> Turned
    requires { text_most ≤ length out.old }
    ensures { WholeTurned session event used buys.old sells.old room.old out.old buys.new sells.new room.new out.new result }
{
    let time = event.time;
    let a = apply::apply(session, event, buys, sells, room);
    let answer = a.answer;
    let after = a.session;
    match answer {
        Ok(count) => {
            let wrote = printing::tell_records(room, count, out);
            Turned {
                run: Run {
                    stage: Stage::Trading,
                    session: after,
                },
                used,
                saves: used,
                wrote,
            }
        }
        Err(refusal) => {
            let wrote = printing::tell_refused(time, refusal, out);
            Turned {
                run: Run {
                    stage: Stage::Trading,
                    session: after,
                },
                used,
                saves: 0,
                wrote,
            }
        }
    }
}

// Takes the line of an event.
fn event_line(
    session: Session,
    bytes: &[u8],
    buys: &mut [u64],
    sells: &mut [u64],
    room: &mut [u64],
    out: &mut [u8],
) -> Turned
    requires { text_most ≤ length out.old }
    ensures { EventTurned session bytes.now buys.old sells.old room.old out.old buys.new sells.new room.new out.new result }
{
    match lines_reading::read_event(bytes) {
        Ok(line) => goes(session, line.value, line.next, buys, sells, room, out),
        Err(LineError::Unfinished) => turned(Stage::Trading, session, 0, 0, 0),
        Err(LineError::Wrong(place)) => bad_line(session, place, out),
    }
}

// Takes the first line of some bytes, which must be the one that is due.
pub fn turn(
    run: Run,
    bytes: &[u8],
    buys: &mut [u64],
    sells: &mut [u64],
    room: &mut [u64],
    out: &mut [u8],
) -> Turned
    requires { most_at run.stage ≤ length out.old }
    ensures { TurnTaken run buys.old sells.old room.old bytes.now out.old buys.new sells.new room.new out.new result }
{
    let stage = run.stage;
    let session = run.session;
    match stage {
        Stage::Awaiting => settings_line(session, bytes, out),
        Stage::Trading => event_line(session, bytes, buys, sells, room, out),
        Stage::Over => turned(Stage::Over, session, 0, 0, 0),
    }
}
