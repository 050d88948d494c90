// The calls on a session: open, apply, sound and view, on numbers that an app keeps.
ghost use Rattle.std.specs.Prelude.{◌≡◌, ◌≤◌, length};
ghost use Rattle.engine_law.specs.Calls.{view_call};
ghost use Rattle.desk_packing_law.specs.Runs.{settings_length, session_length};
ghost use Rattle.desk_packing_law.specs.Answers.{answer_of};
ghost use Rattle.desk_law.specs.Calls.{opened_from, OpenedAs, strange_verdict, FewReported, LaidApplied, CarriedAs, AppliedOn, sound_on, view_on};

use desk_packing::{events, runs, sessions, settings};
use engine::{apply, looking};
use engine_law::Applied;
use state::opening;
use state_law::{Opened, Session};
use tables::{flat, lengths};
use terms::{Event, Refusal, Side, Verdict};

// The opening that the numbers of settings ask for.
fn opened(gs: &[u64]) -> Opened
    requires { settings_length ≤ length gs.now }
    ensures { result ≡ opened_from gs.now }
{
    if !settings::is_category(gs[0]) {
        let session = sessions::fixed();
        return Opened {
            verdict: Err(Refusal::SettingsRange),
            session,
        };
    }
    opening::begin(settings::unpack(gs))
}

// The answer for a verdict, where nothing is counted.
fn answer_to(v: Verdict) -> u64
    ensures { result ≡ answer_of v 0 }
{
    match v {
        Ok(()) => desk_answers::done(0),
        Err(r) => desk_answers::refused(r),
    }
}

// Opens a session: 0 and the session, or 12 or 13 and the fixed session; 1 if a slice is too short.
pub fn kakoludar_open(settings: &[u64], session: &mut [u64]) -> u64
    ensures { OpenedAs settings.now session.old session.new result }
{
    if settings.len() < runs::SETTINGS {
        return desk_answers::refused(Refusal::SmallRoom);
    }
    if session.len() < runs::SESSION {
        return desk_answers::refused(Refusal::SmallRoom);
    }
    let o = opened(settings);
    let verdict = o.verdict;
    let s = o.session;
    let numbers = sessions::pack(s);
    flat::lay(session, &numbers);
    answer_to(verdict)
}

// The answer to an event on numbers that are no session's: the fixed session, which stands for them, is not sound.
fn turned_away(buys: &[u64], sells: &[u64], room: &[u64]) -> u64
    ensures { result ≡ answer_of (strange_verdict buys.now sells.now room.now) 0 }
{
    if !apply::is_roomy(buys, sells, room) {
        return desk_answers::refused(Refusal::SmallRoom);
    }
    desk_answers::refused(Refusal::Unsound)
}

// Lays the session after an accepted event, and answers the count of its reports; or answers the refusal, which writes nothing.
fn lay_applied(session: &mut [u64], applied: Applied) -> u64
    requires { (session_length ≤ length session.old) × FewReported applied.answer }
    ensures { LaidApplied applied session.old session.new result }
{
    let answer = applied.answer;
    let after = applied.session;
    match answer {
        Ok(count) => {
            let numbers = sessions::pack(after);
            flat::lay(session, &numbers);
            desk_answers::done(count)
        }
        Err(r) => desk_answers::refused(r),
    }
}

// Applies an event to a session and lays what it is then.
fn carried(
    s: Session,
    e: Event,
    session: &mut [u64],
    buys: &mut [u64],
    sells: &mut [u64],
    room: &mut [u64],
) -> u64
    requires { session_length ≤ length session.old }
    ensures { CarriedAs s e session.old buys.old sells.old room.old session.new buys.new sells.new room.new result }
{
    let applied = apply::apply(s, e, buys, sells, room);
    lay_applied(session, applied)
}

// Applies an event and answers the count of its reports, or a refusal, which writes nothing.
pub fn kakoludar_apply(
    session: &mut [u64],
    event: &[u64],
    buys: &mut [u64],
    sells: &mut [u64],
    room: &mut [u64],
) -> u64
    ensures { AppliedOn session.old event.now buys.old sells.old room.old session.new buys.new sells.new room.new result }
{
    if session.len() < runs::SESSION {
        return desk_answers::refused(Refusal::SmallRoom);
    }
    if event.len() < runs::EVENT {
        return desk_answers::refused(Refusal::SmallRoom);
    }
    if !sessions::is_session(session) {
        return turned_away(buys, sells, room);
    }
    let s = sessions::session_of(session);
    let e = events::unpack(event);
    carried(s, e, session, buys, sells, room)
}

// Whether a session is sound, with the orders in its tables: 1 or 0.
pub fn kakoludar_sound(session: &[u64], buys: &[u64], sells: &[u64]) -> u64
    ensures { result ≡ sound_on session.now buys.now sells.now }
{
    if session.len() < runs::SESSION {
        return 0;
    }
    if buys.len() < lengths::TABLE {
        return 0;
    }
    if sells.len() < lengths::TABLE {
        return 0;
    }
    let s = sessions::unpack(session);
    u64::from(soundness::is_sound(s, buys, sells))
}

// The length of a side's view.
fn view_length<'a>(side: Side, s: Session, buys: &'a [u64], sells: &'a [u64]) -> u64
    ensures { result ≡ length (view_call side s buys.now sells.now) }
{
    let view = looking::view(side, s, buys, sells);
    view.len() as u64
}

// The length of the view of the named side, 1 buy or 2 sell: it starts at number 0 of that side's table.
#[tactic(auto, unfolding(desk_law::specs::Calls::view_on))]
pub fn kakoludar_view<'a>(side: u64, session: &[u64], buys: &'a [u64], sells: &'a [u64]) -> u64
    ensures { result ≡ view_on side session.now buys.now sells.now }
{
    if session.len() < runs::SESSION {
        return 0;
    }
    let s = sessions::unpack(session);
    match side {
        1 => view_length(Side::Buy, s, buys, sells),
        2 => view_length(Side::Sell, s, buys, sells),
        _ => 0,
    }
}
