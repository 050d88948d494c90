// resume_pieces: the lines of a piece of saved bytes, replayed behind those of earlier pieces.
// It may use lines_reading, resume_lines and state, and what these use. It promises, of any bytes: whatever follows the piece, what is still to
// come back is what was to come back before it, all whole lines are taken, and places and counts are those of all pieces; or nothing more is
// to be read, since a bad line was met and is told, or since the bytes that were read are too many.

#![tactic(auto)]

ghost use Rattle.std.specs.Prelude.{◌≡◌};
ghost use Rattle.engine_law.specs.Calls.{LongEnough};
ghost use Rattle.resume_law.specs.Pieces.{back_to, unread_back, passed_to, passed_end, StartTold, StoodAs, PassedAs};

use lines_text_law::LineError;
use resume_law::{Back, BadLine, Comeback, Passed, Replayed};
use state::opening;
use state_law::Session;

// What came back, where it could be read.
pub fn back_to(answer: Comeback, session: Session) -> Back
    ensures { result ≡ back_to answer session }
{
    Back {
        answer,
        session,
        read: true,
    }
}

// Not all could be read.
pub fn unread() -> Back
    ensures { result ≡ unread_back }
{
    Back {
        answer: Ok(0),
        session: opening::fixed(),
        read: false,
    }
}

fn passed_to(used: usize, before: usize, session: Session) -> Passed
    ensures { result ≡ passed_to used before session }
{
    Passed {
        used,
        before,
        back: back_to(Ok(before), session),
        more: true,
    }
}

fn passed_end(back: Back) -> Passed
    ensures { result ≡ passed_end back }
{
    Passed {
        used: 0,
        before: 0,
        back,
        more: false,
    }
}

// What the replay of a piece comes to, behind so many bytes of earlier ones; where no number counts them, not all could be read.
fn stood(t: Replayed, before: usize) -> Passed
    ensures { StoodAs t before result }
{
    let answer = t.answer;
    let session = t.session;
    let most = usize::MAX - before;
    match answer {
        Ok(n) => {
            if n > most {
                return passed_end(unread());
            }
            let all = before + n;
            passed_to(n, all, session)
        }
        Err(bad) => {
            if bad.place > most {
                return passed_end(unread());
            }
            let told = BadLine {
                refusal: bad.refusal,
                place: before + bad.place,
            };
            passed_end(back_to(Err(told), session))
        }
    }
}

// Whether the bytes are the start of a line, or none, so that there is nothing to replay.
fn is_start(bytes: &[u8]) -> bool
    ensures { StartTold bytes.now result }
{
    // `matches!` does not close at `returns-in_default`: no name there says that the error is the other one.
    match lines_reading::read_event(bytes) {
        Ok(_) => false,
        Err(LineError::Unfinished) => true,
        Err(LineError::Wrong(_)) => false,
    }
}

// Replays the lines of a piece, behind so many bytes of earlier ones.
pub fn take_piece(
    bytes: &[u8],
    before: usize,
    session: Session,
    buys: &mut [u64],
    sells: &mut [u64],
    room: &mut [u64],
) -> Passed
    requires { LongEnough buys.old sells.old room.old }
    ensures { PassedAs before session bytes.now buys.old sells.old buys.new sells.new result }
{
    if is_start(bytes) {
        return passed_to(0, before, session);
    }
    let t = resume_lines::replay_lines(bytes, 0, session, buys, sells, room);
    stood(t, before)
}
