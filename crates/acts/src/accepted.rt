// An event that no row refuses: the clock steps and the act are carried out, and their reports written.
ghost use Rattle.std.specs.Prelude.{◌≡◌, true};
ghost use Rattle.state_law.specs.Set.{set_time, set_closed};
ghost use Rattle.state_law.specs.code.Tens.{Ten};
ghost use Rattle.acts_law.specs.Acts.{act};
ghost use Rattle.soundness_law.specs.Sound.{day_in};
ghost use Rattle.engine_law.specs.Calls.{event_at, Ready, ActedAs};
ghost use Rattle.acts_law.specs.code.Entering.{Entering};
ghost use Rattle.engine_law.specs.code.Steps.{Stepping, SteppedAs, Begins, BegunAs, QuietAs, OrderedAs, EntersOn, OrderedOn, Withdrawing, CancelledAs};

use acts_cancels::{closing, withdrawing};
use acts_orders::entering;
use acts_reports::{counting, telling};
use engine_law::{Applied, Begun};
use state::clock;
use state_law::Session;
use tables::orders;
use terms::{Act, Entry, Event, Side};

// Clears the tables' tails and reports the clock steps, as every event but the close does first.
fn step_in(old: Session, s: Session, buys: &mut [u64], sells: &mut [u64], room: &mut [u64]) -> usize
    requires { Stepping old s buys.old sells.old room.old }
    ensures { SteppedAs old s buys.old sells.old room.old buys.new sells.new room.new result }
{
    let nbuys = old.live.buys as usize;
    let nsells = old.live.sells as usize;
    orders::clear_tail(buys, nbuys);
    orders::clear_tail(sells, nsells);
    telling::tell_clock(room, 0, old, s)
}

// Begins an event: the clock steps are made and reported.
fn begin(s: Session, t: u64, buys: &mut [u64], sells: &mut [u64], room: &mut [u64]) -> Begun
    requires { Begins s t buys.old sells.old room.old }
    ensures { BegunAs s t buys.old sells.old room.old buys.new sells.new room.new result }
{
    let stepped = clock::step(s, t);
    let at = step_in(s, stepped, buys, sells, room);
    Begun {
        session: stepped,
        at,
    }
}

// Carries out under or clock: the clock steps, and at most another underlying.
fn only_clock(
    s: Session,
    t: u64,
    under: u64,
    buys: &mut [u64],
    sells: &mut [u64],
    room: &mut [u64],
) -> Applied
    requires { Begins s t buys.old sells.old room.old }
    ensures { QuietAs s t under buys.old sells.old room.old buys.new sells.new room.new result }
{
    let nbuys = s.live.buys as usize;
    let nsells = s.live.sells as usize;
    let b = begin(s, t, buys, sells, room);
    let mut r = b.session;
    r.clock.under = under;
    counting::done(r, nbuys, nsells, b.at)
}

// Removes an order after the clock steps.
fn withdraw(
    s: Session,
    number: u64,
    t: u64,
    buys: &mut [u64],
    nbuys: usize,
    sells: &mut [u64],
    nsells: usize,
    room: &mut [u64],
    at: usize,
) -> Applied
    requires { Withdrawing number nbuys buys.old nsells sells.old room.old at }
    ensures { CancelledAs number t s nbuys buys.old nsells sells.old room.old at buys.new sells.new room.new result }
{
    let w = withdrawing::withdraw(number, t, buys, nbuys, sells, nsells, room, at);
    counting::done(s, w.buys, w.sells, w.at)
}

// Carries out a cancel: the clock steps, then the removal.
fn cancel(
    s: Session,
    t: u64,
    number: u64,
    buys: &mut [u64],
    sells: &mut [u64],
    room: &mut [u64],
) -> Applied
    requires { Ready s t (Act.Withdraw number) buys.old sells.old room.old }
    ensures { ActedAs (act (day_in s buys.old sells.old) (event_at t (Act.Withdraw number))) buys.old sells.old room.old buys.new sells.new room.new result }
{
    let nbuys = s.live.buys as usize;
    let nsells = s.live.sells as usize;
    let b = begin(s, t, buys, sells, room);
    let stepped = b.session;
    withdraw(stepped, number, t, buys, nbuys, sells, nsells, room, b.at)
}

// Carries out a buy after the clock steps: its own side is that of the buys.
fn buy(
    s: Session,
    n: Entry,
    buys: &mut [u64],
    nbuys: usize,
    sells: &mut [u64],
    nsells: usize,
    room: &mut [u64],
    at: usize,
) -> Applied
    requires { Entering s n nbuys buys.old nsells sells.old room.old at }
    ensures { OrderedAs Side.Buy s n nbuys buys.old nsells sells.old room.old at buys.new sells.new room.new result }
{
    let r = entering::enter(s, n, buys, nbuys, sells, nsells, room, at);
    let session = r.session;
    counting::done(session, r.mine, r.theirs, r.at)
}

// Carries out a sell after the clock steps: its own side is that of the sells.
fn sell(
    s: Session,
    n: Entry,
    buys: &mut [u64],
    nbuys: usize,
    sells: &mut [u64],
    nsells: usize,
    room: &mut [u64],
    at: usize,
) -> Applied
    requires { Entering s n nsells sells.old nbuys buys.old room.old at }
    ensures { OrderedAs Side.Sell s n nsells sells.old nbuys buys.old room.old at sells.new buys.new room.new result }
{
    let r = entering::enter(s, n, sells, nsells, buys, nbuys, room, at);
    let session = r.session;
    counting::done(session, r.theirs, r.mine, r.at)
}

// Carries out an order after the clock steps, as a buy or as a sell.
fn enter(
    s: Session,
    n: Entry,
    buys: &mut [u64],
    nbuys: usize,
    sells: &mut [u64],
    nsells: usize,
    room: &mut [u64],
    at: usize,
) -> Applied
    requires { EntersOn s n nbuys buys.old nsells sells.old room.old at }
    ensures { OrderedOn s n nbuys buys.old nsells sells.old room.old at buys.new sells.new room.new result }
{
    let side = n.side;
    match side {
        Side::Buy => buy(s, n, buys, nbuys, sells, nsells, room, at),
        Side::Sell => sell(s, n, buys, nbuys, sells, nsells, room, at),
    }
}

// Carries out an order: the clock steps, then the buy or the sell.
fn order(
    s: Session,
    t: u64,
    n: Entry,
    buys: &mut [u64],
    sells: &mut [u64],
    room: &mut [u64],
) -> Applied
    requires { Ready s t (Act.Enter n) buys.old sells.old room.old }
    ensures { ActedAs (act (day_in s buys.old sells.old) (event_at t (Act.Enter n))) buys.old sells.old room.old buys.new sells.new room.new result }
{
    let nbuys = s.live.buys as usize;
    let nsells = s.live.sells as usize;
    let b = begin(s, t, buys, sells, room);
    let stepped = b.session;
    enter(stepped, n, buys, nbuys, sells, nsells, room, b.at)
}

// The session of a day that is closed. The tape has ten places for the trades that it remembers.
fn closed(s: Session, t: u64) -> Session
    ensures { (result ≡ set_closed (set_time s t) true) × Ten s }
{
    let mut r = s;
    r.clock.time = t;
    r.clock.closed = true;
    r
}

// Carries out the close: every order is cancelled, and the closing prices are reported.
fn close(
    s: Session,
    t: u64,
    settle: u64,
    buys: &mut [u64],
    sells: &mut [u64],
    room: &mut [u64],
) -> Applied
    requires { Ready s t (Act.Finish settle) buys.old sells.old room.old }
    ensures { ActedAs (act (day_in s buys.old sells.old) (event_at t (Act.Finish settle))) buys.old sells.old room.old buys.new sells.new room.new result }
{
    let after = closed(s, t);
    let at = closing::finish(s, t, settle, buys, sells, room);
    counting::done(after, 0, 0, at)
}

// Carries out an accepted event, by its act.
pub fn carry_out(
    s: Session,
    e: Event,
    buys: &mut [u64],
    sells: &mut [u64],
    room: &mut [u64],
) -> Applied
    requires { Ready s e.time e.act buys.old sells.old room.old }
    ensures { ActedAs (act (day_in s buys.old sells.old) e) buys.old sells.old room.old buys.new sells.new room.new result }
{
    let a = e.act;
    let t = e.time;
    match a {
        Act::Enter(n) => order(s, t, n, buys, sells, room),
        Act::Withdraw(number) => cancel(s, t, number, buys, sells, room),
        Act::Under(price) => only_clock(s, t, price, buys, sells, room),
        Act::Clock => only_clock(s, t, s.clock.under, buys, sells, room),
        Act::Finish(settle) => close(s, t, settle, buys, sells, room),
    }
}
