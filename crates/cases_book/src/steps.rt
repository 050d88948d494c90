// What a line of input does.
ghost use Rattle.std.specs.Prelude.{◌≤◌, length};
ghost use Rattle.terms.specs.Sizes.{slots};
ghost use Rattle.tables.specs.Lengths.{table_length};
ghost use Rattle.rules_law.specs.Reference.{RangeFits};
ghost use Rattle.cases_book.specs.Lent.{Counted, SidesLent};

use crate::says;
use book::{side, view};
use cases::{nine, print};
use matching::crossing;
use matching_law::Incoming;
use rules_law::Range;
use tables::side::Orders;
use tables::{lengths, orders};
use terms::{Kind, Order, Side, sizes};

// A table that is longer than it must be, and a room for a report of every counter order.
pub const LONG: usize = lengths::TABLE + 132;

const ROOM: usize = lengths::RECORD * sizes::SLOTS + 64;

// How many orders are live: on the side that a line names, and on the other.
#[derive(Clone, Copy)]
pub struct Counts {
    pub own: usize,
    pub other: usize,
}

fn side_of(x: u64) -> Side {
    match x {
        0 => Side::Buy,
        _ => Side::Sell,
    }
}

fn kind_of(x: u64, limit: u64) -> Kind {
    match x {
        0 => Kind::Market,
        _ => Kind::Limit(limit),
    }
}

fn range_of(percent: u64, reference: u64) -> Range
    ensures { RangeFits result }
{
    Range {
        percent: percent % 101,
        reference: reference % 110_600_001,
    }
}

fn incoming(side: Side, w: [u64; 9]) -> Incoming
    ensures { RangeFits result.range }
{
    let kind = kind_of(w[2], w[3]);
    let range = range_of(w[6], w[7]);
    Incoming {
        side,
        kind,
        range,
        number: w[5],
        lots: w[4],
        time: 60_000,
        last: w[8],
    }
}

fn fill(t: &mut [u64], from: usize, value: u64) {
    for i in from..t.len() {
        t[i] = value;
    }
}

fn add(t: &mut [u64], n: usize, side: Side, o: Order) -> usize
    requires { (n ≤ slots) × (table_length ≤ length t.old) }
    ensures { result ≤ slots }
{
    if sizes::SLOTS <= n {
        return n;
    }
    orders::clear_tail(t, n);
    side::add(t, n, side, o);
    n + 1
}

fn fewer(n: usize, b: bool) -> usize
    ensures { result ≤ n }
{
    if b {
        if 0 < n {
            return n - 1;
        }
    }
    n
}

fn remove(t: &mut [u64], n: usize, number: u64) -> usize
    requires { (n ≤ slots) × (table_length ≤ length t.old) }
    ensures { result ≤ slots }
{
    orders::clear_tail(t, n);
    let rests = side::is_resting(Orders { table: t, count: n }, number);
    let lots = side::remove(t, n, number);
    let left = fewer(n, rests);
    says::truth(rests);
    print::number(lots);
    says::count(left);
    print::end();
    left
}

// Does what a line asks of one table: puts an order in, removes one, or overwrites numbers past the live part.
fn edit(t: &mut [u64], n: usize, side: Side, w: [u64; 9]) -> usize
    requires { (n ≤ slots) × (table_length ≤ length t.old) }
    ensures { result ≤ slots }
{
    if w[0] == 1 {
        let o = Order {
            number: w[2],
            price: w[3],
            lots: w[4],
        };
        return add(t, n, side, o);
    }
    if w[0] == 2 {
        return remove(t, n, w[2]);
    }
    fill(t, (w[2] % 10_000) as usize, w[3]);
    n
}

// An order sweeps a table. Its reports begin at place 10, and the two numbers on either side of them are printed with them.
fn sweep(t: &mut [u64], n: usize, x: Incoming) -> usize
    requires { (n ≤ slots) × (table_length ≤ length t.old) × RangeFits x.range }
    ensures { result ≤ slots }
{
    let mut room: [u64; ROOM] = [9; ROOM];
    orders::clear_tail(t, n);
    let m = crossing::sweep(t, n, &mut room, 10, x);
    says::count(m.count);
    print::number(m.left);
    says::count(m.trades);
    says::count(m.at);
    print::number(m.last);
    says::truth(m.out);
    says::part(&room, 8, m.at % 10_000 + 2);
    print::end();
    let count = m.count;
    if sizes::SLOTS < count {
        return 0;
    }
    count
}

fn show<'a>(side: Side, buys: &'a [u64], sells: &'a [u64], buying: usize, selling: usize) {
    let live = view::view(side, buys, sells, buying, selling);
    says::part(live, 0, live.len());
    says::bar();
    let from = live.len();
    match side {
        Side::Buy => says::rest(buys, from, lengths::TABLE),
        Side::Sell => says::rest(sells, from, lengths::TABLE),
    }
    print::end();
}

fn show_named<'a>(side: Side, own: &'a [u64], other: &'a [u64], c: Counts) {
    match side {
        Side::Buy => show(side, own, other, c.own, c.other),
        Side::Sell => show(side, other, own, c.other, c.own),
    }
}

// Does what a line asks that names a side, given that side's table and the other one.
fn act(own: &mut [u64], other: &mut [u64], c: Counts, side: Side, w: [u64; 9]) -> Counts
    requires { Counted c × SidesLent own.old other.old }
    ensures { Counted result }
{
    let n = c.own;
    let m = c.other;
    if w[0] == 0 {
        fill(own, 0, 7);
        fill(other, 0, 7);
        return Counts { own: 0, other: 0 };
    }
    if w[0] == 3 {
        let k = sweep(other, m, incoming(side, w));
        return Counts { own: n, other: k };
    }
    if w[0] == 5 {
        show_named(side, own, other, c);
        return c;
    }
    let k = edit(own, n, side, w);
    Counts { own: k, other: m }
}

// The same, given the buys and the sells.
fn turn(buys: &mut [u64], sells: &mut [u64], c: Counts, w: [u64; 9]) -> Counts
    requires { Counted c × SidesLent buys.old sells.old }
    ensures { Counted result }
{
    let side = side_of(w[1]);
    match side {
        Side::Buy => act(buys, sells, c, side, w),
        Side::Sell => turned(act(sells, buys, turned(c), side, w)),
    }
}

fn turned(c: Counts) -> Counts
    requires { Counted c }
    ensures { Counted result }
{
    Counts {
        own: c.other,
        other: c.own,
    }
}

// Takes line after line, to the end of the input.
pub fn run(text: &[u8], buys: &mut [u64], sells: &mut [u64])
    requires { SidesLent buys.old sells.old }
{
    let mut c = Counts { own: 0, other: 0 };
    let mut at: usize = 0;
    // no `for` is plainer: the place goes on by the length of each line
    while at < text.len() {
        let l = nine::nine(text, at);
        let w = l.words;
        c = turn(buys, sells, c, w);
        at = l.next;
    }
}
