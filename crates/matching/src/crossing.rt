// The sweep over the counter side's table: a loop reads the table and writes the reports, and afterwards the table is changed once.
ghost use Rattle.std.specs.Prelude.{◌≡◌, false, ◌+◌, ◌*◌, ◌≤◌, length, drop};
ghost use Rattle.tables.specs.Lengths.{record_length};
ghost use Rattle.rules_law.specs.Reference.{RangeFits};
ghost use Rattle.tables.specs.Tables.{decode, table_of, Holds};
ghost use Rattle.tables.specs.Live.{orders_in};
ghost use Rattle.matching_law.specs.code.Sweeps.{trim, head_lots, passed_whole, finish, Passes, SweptInto};

use crate::{deals, prices};
use matching_law::{Incoming, Matched, Passed};
use tables::side::Orders;
use tables::{lengths, orders};

// The answer of a sweep that stops before the counter order in slot i.
fn stop(i: usize, left: u64, last: u64, out: bool) -> Passed
    ensures { result ≡ passed_whole i left last out }
{
    Passed {
        whole: i,
        part: 0,
        left,
        trades: i,
        last,
        out,
    }
}

// Goes over the counter orders, reports the trades, and answers how far the incoming order came.
fn pass(orders: Orders, room: &mut [u64], at: usize, x: Incoming) -> Passed
    requires { (at + record_length * orders.count ≤ length room.old) × RangeFits x.range }
    ensures { Passes orders.entry.count (orders_in orders.entry) (finish x at 0 0 x.last x.lots (orders_in orders.entry) room.old) room.new result }
{
    let mut first = 0;
    let mut last = x.last;
    let mut left = x.lots;
    for i in 0..orders.count {
        if left == 0 {
            return stop(i, left, last, false);
        }
        let o = orders.at(i);
        let m = prices::meet(x, first, o.price);
        if !m.trades {
            return stop(i, left, last, m.out);
        }
        let place = at + lengths::RECORD * i;
        if left < o.lots {
            deals::report(room, place, x, deals::part_of(o, left));
            return Passed {
                whole: i,
                part: left,
                left: 0,
                trades: i + 1,
                last: o.price,
                out: false,
            };
        }
        deals::report(room, place, x, o);
        first = prices::first_after(first, o.price);
        last = o.price;
        left -= o.lots;
    }
    stop(orders.count, left, last, false)
}

// Takes out the first counter orders, which traded whole, and the lots that the next one lost.
fn settle(t: &mut [u64], n: usize, whole: usize, lots: u64)
    requires { Holds n t.old × (whole ≤ n) × (lots ≤ head_lots (drop whole (decode n t.old))) }
    ensures { t.new ≡ table_of (trim lots (drop whole (decode n t.old))) t.old }
{
    if lots == 0 {
        orders::remove_first(t, n, whole);
        return;
    }
    let o = orders::order_at(t, whole);
    let kept = o.lots - lots;
    orders::change(t, n, whole, deals::part_of(o, kept));
    orders::remove_first(t, n, whole);
}

// The incoming order sweeps the n counter orders of table t; its trades are reported in the room from `at` on.
pub fn sweep(t: &mut [u64], n: usize, room: &mut [u64], at: usize, x: Incoming) -> Matched
    requires { Holds n t.old × (at + record_length * n ≤ length room.old) × RangeFits x.range }
    ensures { SweptInto x (decode n t.old) t.old room.old at t.new room.new result }
{
    let p = pass(Orders { table: t, count: n }, room, at, x);
    settle(t, n, p.whole, p.part);
    Matched {
        count: n - p.whole,
        left: p.left,
        trades: p.trades,
        at: at + lengths::RECORD * p.trades,
        last: p.last,
        out: p.out,
    }
}
