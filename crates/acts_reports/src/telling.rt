// Reports are written into the room, one behind the other.
ghost use Rattle.std.specs.Prelude.{not, [], ◌∷◌, ◌+◌, ◌*◌, ◌≤◌, eqb, length};
ghost use Rattle.tables.specs.Lengths.{record_length};
ghost use Rattle.tables.specs.Live.{orders_in};
ghost use Rattle.book_law.specs.Matching.{report_at};
ghost use Rattle.state_law.specs.Now.{Clocked};
ghost use Rattle.acts_law.specs.Acts.{only, slab_moved, slab_report, clock_reports, ended, cancel_reports};
ghost use Rattle.acts_law.specs.code.Written.{Written};

use state::force;
use state_law::Session;
use tables::lengths;
use tables::side::Orders;
use terms::{Ended, Report, Said, Why};

// Writes one report into the room, and answers the place behind it.
pub fn tell(room: &mut [u64], at: usize, time: u64, said: Said) -> usize
    requires { at + record_length ≤ length room.old }
    ensures { Written room.old at (report_at time said ∷ []) room.new result }
{
    let next = at + lengths::RECORD;
    tables::room::put_record(room, at, Report { time, said });
    next
}

// Writes a slab report where the percent changed.
fn tell_slab(room: &mut [u64], at: usize, old: Session, s: Session) -> usize
    requires { (at + record_length ≤ length room.old) × Clocked s }
    ensures { Written room.old at (only (slab_moved old s) (slab_report s)) room.new result }
{
    if force::percent_now(old) == force::percent_now(s) {
        return at;
    }
    let band = force::band_now(s);
    tell(room, at, s.clock.time, Said::Slab(band))
}

// Writes a ref report where the value changed.
fn tell_ref(room: &mut [u64], at: usize, old: u64, s: Session) -> usize
    requires { at + record_length ≤ length room.old }
    ensures { Written room.old at (only (not (eqb old s.reckoning.reference)) (report_at s.clock.time (Said.Ref s.reckoning.reference))) room.new result }
{
    let reference = s.reckoning.reference;
    if old == reference {
        return at;
    }
    tell(room, at, s.clock.time, Said::Ref(reference))
}

// Writes the reports of the clock steps that lead from one session to the next.
pub fn tell_clock(room: &mut [u64], at: usize, old: Session, s: Session) -> usize
    requires { (at + record_length * 2 ≤ length room.old) × Clocked s }
    ensures { Written room.old at (clock_reports old s) room.new result }
{
    let behind = tell_slab(room, at, old, s);
    tell_ref(room, behind, old.reckoning.reference, s)
}

// Writes the cancel of an order.
pub fn tell_cancel(
    room: &mut [u64],
    at: usize,
    time: u64,
    number: u64,
    lots: u64,
    why: Why,
) -> usize
    requires { at + record_length ≤ length room.old }
    ensures { Written room.old at (ended time number lots why ∷ []) room.new result }
{
    tell(room, at, time, Said::Cancel(Ended { number, lots, why }))
}

// Writes the cancels of all orders of a side, in priority order, at the day's end.
pub fn cancel_all(room: &mut [u64], at: usize, time: u64, orders: Orders) -> usize
    requires { at + record_length * orders.count ≤ length room.old }
    ensures { Written room.old at (cancel_reports Why.DayEnd time (orders_in orders.entry)) room.new result }
{
    let mut next = at;
    for i in 0..orders.count {
        let o = orders.at(i);
        next = tell_cancel(room, next, time, o.number, o.lots, Why::DayEnd);
    }
    next
}
