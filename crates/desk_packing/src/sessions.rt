// A session written as 44 numbers, a section for each of its groups, and read from them.
ghost use Rattle.std.specs.Prelude.{◌≡◌, ◌+◌, ◌≤◌, length};
ghost use Rattle.state_law.specs.Opening.{fixed_session};
ghost use Rattle.desk_packing_law.specs.Runs.{session_length};
ghost use Rattle.desk_packing_law.specs.Sessions.{clock_from, live_from, reckoning_from, tape_from, session_numbers, is_session, session_of, session_from};

use crate::{runs, settings};
use rules_law::{Minute, Reckoning, Tally, Tape};
use state_law::{Dial, Live, Session};

// Whether numbers are a session's.
pub fn is_session(ns: &[u64]) -> bool
    requires { session_length ≤ length ns.now }
    ensures { result ≡ is_session ns.now }
{
    let laid_out = ns[0] == runs::LAYOUT;
    let category = settings::is_category(ns[runs::SETTINGS_AT]);
    let closed = ns[runs::CLOCK_AT + 1] <= 1;
    laid_out & category & closed
}

fn clock_at(ns: &[u64], at: usize) -> Dial
    requires { at + 5 ≤ length ns.now }
    ensures { result ≡ clock_from ns.now at }
{
    Dial {
        time: ns[at],
        closed: ns[at + 1] == 1,
        widened: ns[at + 2],
        cooling: ns[at + 3],
        under: ns[at + 4],
    }
}

fn live_at(ns: &[u64], at: usize) -> Live
    requires { at + 3 ≤ length ns.now }
    ensures { result ≡ live_from ns.now at }
{
    Live {
        buys: ns[at],
        sells: ns[at + 1],
        given: ns[at + 2],
    }
}

fn reckoning_at(ns: &[u64], at: usize) -> Reckoning
    requires { at + 3 ≤ length ns.now }
    ensures { result ≡ reckoning_from ns.now at }
{
    Reckoning {
        reference: ns[at],
        minute: Minute {
            count: ns[at + 1],
            sum: ns[at + 2],
        },
    }
}

fn tape_at(ns: &[u64], at: usize) -> Tape
    requires { at + 24 ≤ length ns.now }
    ensures { result ≡ tape_from ns.now at }
{
    Tape {
        trades: ns[at],
        prices: runs::ten_at(ns, at + 1),
        sizes: runs::ten_at(ns, at + 11),
        half: Tally {
            count: ns[at + 21],
            lots: ns[at + 22],
            value: ns[at + 23],
        },
    }
}

// The session that the numbers of one stand for.
pub fn session_of(ns: &[u64]) -> Session
    requires { session_length ≤ length ns.now }
    ensures { result ≡ session_of ns.now }
{
    Session {
        settings: settings::settings_at(ns, runs::SETTINGS_AT),
        clock: clock_at(ns, runs::CLOCK_AT),
        live: live_at(ns, runs::LIVE_AT),
        reckoning: reckoning_at(ns, runs::RECKONING_AT),
        tape: tape_at(ns, runs::TAPE_AT),
    }
}

// The paper's fixed session: broad, open, every number zero.
pub fn fixed() -> Session
    ensures { result ≡ fixed_session }
{
    let zeros = [0u64; runs::SESSION];
    session_of(&zeros)
}

// The session that some numbers stand for; the fixed one where they are no session's.
pub fn unpack(ns: &[u64]) -> Session
    requires { session_length ≤ length ns.now }
    ensures { result ≡ session_from ns.now }
{
    if !is_session(ns) {
        return fixed();
    }
    session_of(ns)
}

// The numbers of a session: one literal, as copying section by section would write each number twice, zeros first.
pub fn pack(s: Session) -> [u64; 44]
    ensures { result ≡ session_numbers s }
{
    let g = s.settings;
    let clock = s.clock;
    let live = s.live;
    let reckoning = s.reckoning;
    let minute = reckoning.minute;
    let tape = s.tape;
    let p = tape.prices;
    let q = tape.sizes;
    let half = tape.half;
    [
        runs::LAYOUT,
        u64::from(g.category),
        g.base,
        g.close,
        g.settle,
        g.tick,
        g.length,
        g.days,
        g.under,
        clock.time,
        u64::from(clock.closed),
        clock.widened,
        clock.cooling,
        clock.under,
        live.buys,
        live.sells,
        live.given,
        reckoning.reference,
        minute.count,
        minute.sum,
        tape.trades,
        p[0],
        p[1],
        p[2],
        p[3],
        p[4],
        p[5],
        p[6],
        p[7],
        p[8],
        p[9],
        q[0],
        q[1],
        q[2],
        q[3],
        q[4],
        q[5],
        q[6],
        q[7],
        q[8],
        q[9],
        half.count,
        half.lots,
        half.value,
    ]
}
