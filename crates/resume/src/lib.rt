// resume: comes back from saved bytes, the settings line and the lines of accepted events, cut after any byte.
// It may use engine, lines_reading, resume_lines, state and tables, and what these use. It promises, of any bytes and any lent slices: the answer, the
// session and each lent number afterwards are those of resume_law; a refusal writes no table.
// Its scratch, two tables and a report room, is lent to `resume_lent`. `resume` has it on the stack: 37,248 bytes; with items 9, 11 and 12 of
// document 02 it will be 82,688.

#![tactic(auto)]

ghost use Rattle.std.specs.Prelude.{◌≤◌, true, ◌≡◌, length};
ghost use Rattle.terms.specs.Settings.{settings_verdict};
ghost use Rattle.state_law.specs.Opening.{fixed_session};
ghost use Rattle.engine_law.specs.Calls.{LongTables, LongEnough};
ghost use Rattle.resume_law.specs.Answers.{bad_at};
ghost use Rattle.resume_law.specs.Rebuilt.{trading_by, resumed};
ghost use Rattle.resume_law.specs.code.Replaying.{bare_from, LaidIf, Scratch, AllLong, RebuiltIn, RebuiltLent};
ghost use Rattle.resume_law.specs.Calls.{all_long, Scrubbed, ResumedBy, ResumedAs, ResumedLent, resumed_to, tables_long};

use engine::apply;
use lines_text_law::LineError;
use resume_law::{BadLine, Resumed};
use state::opening;
use state_law::Session;
use tables::{flat, lengths};
use terms::{Refusal, Settings};

// A refusal: the fixed session, and nothing written.
fn turned_down(refusal: Refusal, place: usize) -> Resumed
    ensures { result ≡ resumed_to (bad_at refusal place) fixed_session }
{
    Resumed {
        answer: Err(BadLine { refusal, place }),
        session: opening::fixed(),
    }
}

// Lays the spare tables over the lent ones, where an event was among the lines.
fn lay_if(moved: bool, buys: &mut [u64], sells: &mut [u64], bought: &[u64], sold: &[u64])
    requires { (length bought.now ≤ length buys.old) × (length sold.now ≤ length sells.old) }
    ensures { LaidIf moved buys.old sells.old bought.now sold.now buys.new sells.new }
{
    if !moved {
        return;
    }
    flat::lay(buys, bought);
    flat::lay(sells, sold);
}

// Replays the event lines on spare tables. The lent ones are written only when no line was refused, and where an event was among the lines.
fn from_opening(
    session: Session,
    first: usize,
    saved: &[u8],
    buys: &mut [u64],
    sells: &mut [u64],
    bought: &mut [u64],
    sold: &mut [u64],
    room: &mut [u64],
) -> Resumed
    requires { (session.live.buys ≡ 0) × (session.live.sells ≡ 0) × (first ≤ length saved.now) × LongTables buys.old sells.old × Scratch bought.old sold.old room.old }
    ensures { ResumedBy (bare_from saved.now first session) buys.old sells.old buys.new sells.new result }
{
    let r = resume_lines::replay_lines(saved, first, session, bought, sold, room);
    let answer = r.answer;
    let after = r.session;
    let moved = r.moved;
    lay_if(moved, buys, sells, bought, sold);
    Resumed {
        answer,
        session: after,
    }
}

// A whole settings line: the session opens and the events follow, or it is refused.
fn from_settings(
    settings: Settings,
    first: usize,
    saved: &[u8],
    buys: &mut [u64],
    sells: &mut [u64],
    bought: &mut [u64],
    sold: &mut [u64],
    room: &mut [u64],
) -> Resumed
    requires { (first ≤ length saved.now) × LongTables buys.old sells.old × Scratch bought.old sold.old room.old }
    ensures { ResumedBy (trading_by (settings_verdict settings) settings first saved.now) buys.old sells.old buys.new sells.new result }
{
    let o = opening::begin(settings);
    let verdict = o.verdict;
    let session = o.session;
    match verdict {
        Ok(()) => from_opening(session, first, saved, buys, sells, bought, sold, room),
        Err(_) => turned_down(Refusal::LineRefused, 0),
    }
}

// Rebuilds what the saved lines say, with scratch of just the lengths that it needs.
fn rebuild(
    saved: &[u8],
    buys: &mut [u64],
    sells: &mut [u64],
    bought: &mut [u64],
    sold: &mut [u64],
    room: &mut [u64],
) -> Resumed
    requires { LongTables buys.old sells.old × Scratch bought.old sold.old room.old }
    ensures { ResumedBy (resumed saved.now) buys.old sells.old buys.new sells.new result }
{
    match lines_reading::read_settings(saved) {
        Ok(line) => from_settings(
            line.value, line.next, saved, buys, sells, bought, sold, room,
        ),
        Err(LineError::Unfinished) => turned_down(Refusal::LineUnfinished, 0),
        Err(LineError::Wrong(place)) => turned_down(Refusal::LineWrong, place),
    }
}

// Whether two tables are long enough.
fn is_long(buys: &[u64], sells: &[u64]) -> bool
    ensures { result ≡ tables_long buys.now sells.now }
{
    (lengths::TABLE <= buys.len()) & (lengths::TABLE <= sells.len())
}

// Whether the tables and the scratch are.
fn all_long(buys: &[u64], sells: &[u64], bought: &[u64], sold: &[u64], room: &[u64]) -> bool
    ensures { result ≡ all_long buys.now sells.now bought.now sold.now room.now }
{
    is_long(buys, sells) & apply::is_roomy(bought, sold, room)
}

// Leaves zeros in what was lent as scratch.
fn scrub(bought: &mut [u64], sold: &mut [u64], room: &mut [u64])
    requires { LongEnough bought.old sold.old room.old }
    ensures { Scrubbed true bought.old sold.old room.old bought.new sold.new room.new }
{
    flat::clear(bought, 0, lengths::TABLE);
    flat::clear(sold, 0, lengths::TABLE);
    flat::clear(room, 0, lengths::ROOM);
}

// Comes back from saved bytes: how many of them count, the session, and the tables of the settings and all whole events; or the refusal of
// the first bad line.
pub fn resume(saved: &[u8], buys: &mut [u64], sells: &mut [u64]) -> Resumed
    ensures { ResumedAs saved.now buys.old sells.old buys.new sells.new result }
{
    if !is_long(buys, sells) {
        return turned_down(Refusal::SmallRoom, 0);
    }
    let mut bought = [0u64; lengths::TABLE];
    let mut sold = [0u64; lengths::TABLE];
    let mut room = [0u64; lengths::ROOM];
    rebuild(saved, buys, sells, &mut bought, &mut sold, &mut room)
}

// The same on the first numbers of scratch that may be longer.
fn rebuild_in(
    saved: &[u8],
    buys: &mut [u64],
    sells: &mut [u64],
    bought: &mut [u64],
    sold: &mut [u64],
    room: &mut [u64],
) -> Resumed
    requires { AllLong buys.old sells.old bought.old sold.old room.old }
    ensures { RebuiltIn saved.now buys.old sells.old bought.old sold.old room.old buys.new sells.new bought.new sold.new room.new result }
{
    rebuild(
        saved,
        buys,
        sells,
        &mut bought[0..lengths::TABLE],
        &mut sold[0..lengths::TABLE],
        &mut room[0..lengths::ROOM],
    )
}

// The same, and the scratch is zero afterwards.
fn rebuild_lent(
    saved: &[u8],
    buys: &mut [u64],
    sells: &mut [u64],
    bought: &mut [u64],
    sold: &mut [u64],
    room: &mut [u64],
) -> Resumed
    requires { AllLong buys.old sells.old bought.old sold.old room.old }
    ensures { RebuiltLent saved.now buys.old sells.old bought.old sold.old room.old buys.new sells.new bought.new sold.new room.new result }
{
    let r = rebuild_in(saved, buys, sells, bought, sold, room);
    scrub(bought, sold, room);
    r
}

// The same, with lent scratch: two spare tables and a room, for a caller whose stack is small.
pub fn resume_lent(
    saved: &[u8],
    buys: &mut [u64],
    sells: &mut [u64],
    bought: &mut [u64],
    sold: &mut [u64],
    room: &mut [u64],
) -> Resumed
    ensures { ResumedLent saved.now buys.old sells.old bought.old sold.old room.old buys.new sells.new bought.new sold.new room.new result }
{
    if !all_long(buys, sells, bought, sold, room) {
        return turned_down(Refusal::SmallRoom, 0);
    }
    rebuild_lent(saved, buys, sells, bought, sold, room)
}
