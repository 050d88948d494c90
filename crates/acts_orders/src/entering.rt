// An order that comes in: it is accepted and matched with the counter side, and its remainder is settled.
ghost use Rattle.std.specs.Prelude.{◌≡◌, ◌+◌, ◌<◌, drop};
ghost use Rattle.terms.specs.Sizes.{numbers_most};
ghost use Rattle.tables.specs.Tables.{decode};
ghost use Rattle.state_law.specs.Set.{set_given};
ghost use Rattle.state_law.specs.Now.{band_now};
ghost use Rattle.state_law.specs.Trades.{with_trades};
ghost use Rattle.acts_law.specs.code.Written.{fills_at, Remembering};
ghost use Rattle.acts_law.specs.code.Entering.{incoming_in, Meeting, CrossedAs, MetAs, Entering, EnteredAs};

use crate::leftover;
use acts_law::{Crossed, Entered, Met};
use acts_reports::{remembering, telling};
use matching::crossing;
use matching_law::Incoming;
use rules::close;
use state::force;
use state_law::Session;
use terms::{Band, Entry, Said};

// The order as it meets the counter side: its number, the range, and the price that stands for its last trade before it has one.
fn incoming(s: Session, n: Entry, number: u64) -> Incoming
    ensures { result ≡ incoming_in s n number }
{
    let side = n.side;
    let kind = n.kind;
    let tape = s.tape;
    let range = force::range_now(s);
    let last = close::last_or(s.settings.settle, tape);
    Incoming {
        side,
        kind,
        range,
        number,
        lots: n.lots,
        time: s.clock.time,
        last,
    }
}

// The session after the order is given its number and its trades are remembered; their records stand in the room from `at` on.
fn numbered(s: Session, band: Band, room: &[u64], at: usize, trades: usize) -> Session
    requires { (s.live.given < numbers_most) × Remembering (set_given s (s.live.given + 1)) band room.now at trades }
    ensures { result ≡ with_trades (set_given s (s.live.given + 1)) (fills_at trades (drop at room.now)) }
{
    let mut given = s;
    let number = s.live.given + 1;
    given.live.given = number;
    remembering::remember(given, band, room, at, trades)
}

// Accepts the order and matches it: the accept report and the trades go to the room, and the counter table is what is left of it.
fn cross(
    s: Session,
    n: Entry,
    theirs: &mut [u64],
    count: usize,
    room: &mut [u64],
    at: usize,
) -> Crossed
    requires { Meeting s (band_now s) count theirs.old room.old at }
    ensures { CrossedAs s n (decode count theirs.old) theirs.old room.old at theirs.new room.new result }
{
    let number = s.live.given + 1;
    let x = incoming(s, n, number);
    let first = telling::tell(room, at, s.clock.time, Said::Accept(number));
    let matched = crossing::sweep(theirs, count, room, first, x);
    Crossed { first, matched }
}

// Accepts and matches the order, and remembers its trades in the session.
fn meet(
    s: Session,
    band: Band,
    n: Entry,
    theirs: &mut [u64],
    count: usize,
    room: &mut [u64],
    at: usize,
) -> Met
    requires { Meeting s band count theirs.old room.old at }
    ensures { MetAs s n (decode count theirs.old) theirs.old room.old at theirs.new room.new result }
{
    let c = cross(s, n, theirs, count, room, at);
    let m = c.matched;
    let session = numbered(s, band, room, c.first, m.trades);
    Met {
        session,
        count: m.count,
        at: m.at,
        left: m.left,
        last: m.last,
        out: m.out,
    }
}

// Carries an order out, from its acceptance to its remainder; `mine` is the table of its own side, `theirs` the other one.
pub fn enter(
    s: Session,
    n: Entry,
    mine: &mut [u64],
    nmine: usize,
    theirs: &mut [u64],
    ntheirs: usize,
    room: &mut [u64],
    at: usize,
) -> Entered
    requires { Entering s n nmine mine.old ntheirs theirs.old room.old at }
    ensures { EnteredAs s n (decode nmine mine.old) (decode ntheirs theirs.old) mine.old theirs.old room.old at mine.new theirs.new room.new result }
{
    let side = n.side;
    let kind = n.kind;
    let life = n.life;
    let number = s.live.given + 1;
    let band = force::band_now(s);
    let m = meet(s, band, n, theirs, ntheirs, room, at);
    let left = m.left;
    let behind = m.at;
    let session = m.session;
    let fate = leftover::fate(life, kind, band, m.last, left, m.out);
    let p = leftover::settle(
        mine,
        nmine,
        side,
        number,
        left,
        fate,
        s.clock.time,
        room,
        behind,
    );
    Entered {
        session,
        mine: p.count,
        theirs: m.count,
        at: p.at,
    }
}
