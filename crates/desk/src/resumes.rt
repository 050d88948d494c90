// The calls that come back from saved bytes, after the system killed the app: the session, the tables and how many bytes count.
ghost use Rattle.std.specs.Prelude.{◌≡◌, ◌≤◌, length};
ghost use Rattle.desk_packing_law.specs.Runs.{session_length};
ghost use Rattle.desk_law.specs.Resuming.{resume_number, place_length, place_number, LaidResumed, ResumedInto, ResumedLentInto};

use desk_packing::{runs, sessions};
use resume_law::{Comeback, Resumed};
use tables::flat;
use terms::Refusal;

pub const PLACE: usize = 1;

// The code of what saved bytes are answered: 0 where some count, or the refusal.
fn answer_to(answer: Comeback) -> u64
    ensures { result ≡ resume_number answer }
{
    match answer {
        Ok(_) => desk_answers::done(0),
        Err(bad) => desk_answers::refused(bad.refusal),
    }
}

// The number beside it: how many bytes count, or the place of the refusal.
fn place_in(answer: Comeback) -> usize
    ensures { result ≡ place_number answer }
{
    match answer {
        Ok(count) => count,
        Err(bad) => bad.place,
    }
}

// Writes the session that comes back, on a refusal the fixed one, and the place; answers the code.
fn lay_resumed(session: &mut [u64], place: &mut [u64], resumed: Resumed) -> u64
    requires { (session_length ≤ length session.old) × (place_length ≤ length place.old) }
    ensures { LaidResumed resumed session.old place.old session.new place.new result }
{
    let answer = resumed.answer;
    let after = resumed.session;
    let numbers = sessions::pack(after);
    flat::lay(session, &numbers);
    let at = place_in(answer);
    place[0] = at as u64;
    answer_to(answer)
}

// Comes back from saved bytes: 0, the session and the tables of the settings and all whole events, and how many bytes count; or the fixed
// session, with 1 for a short table, 14, 15 or 22, and the place. If the session's slice or the place is too short: 1, and nothing is written.
pub fn kakoludar_resume(
    saved: &[u8],
    session: &mut [u64],
    buys: &mut [u64],
    sells: &mut [u64],
    place: &mut [u64],
) -> u64
    ensures { ResumedInto saved.now session.old buys.old sells.old place.old session.new buys.new sells.new place.new result }
{
    if session.len() < runs::SESSION {
        return desk_answers::refused(Refusal::SmallRoom);
    }
    if place.len() < PLACE {
        return desk_answers::refused(Refusal::SmallRoom);
    }
    let back = resume::resume(saved, buys, sells);
    lay_resumed(session, place, back)
}

// The same, with lent scratch, two spare tables and a room, for an app whose stack is small. The scratch is zero afterwards.
pub fn kakoludar_resume_lent(
    saved: &[u8],
    session: &mut [u64],
    buys: &mut [u64],
    sells: &mut [u64],
    place: &mut [u64],
    bought: &mut [u64],
    sold: &mut [u64],
    room: &mut [u64],
) -> u64
    ensures { ResumedLentInto saved.now session.old buys.old sells.old place.old bought.old sold.old room.old session.new buys.new sells.new place.new bought.new sold.new room.new result }
{
    if session.len() < runs::SESSION {
        return desk_answers::refused(Refusal::SmallRoom);
    }
    if place.len() < PLACE {
        return desk_answers::refused(Refusal::SmallRoom);
    }
    let back = resume::resume_lent(saved, buys, sells, bought, sold, room);
    lay_resumed(session, place, back)
}
