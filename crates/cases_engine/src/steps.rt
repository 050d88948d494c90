// What a line of input does.
use crate::{calling, says, setting};
use cases::{nine, print};
use state_law::Session;
use tables::{lengths, orders};
use terms::Order;

// Tables and a room longer than they must be.
pub const LONG: usize = lengths::TABLE + 32;

pub const ROOM: usize = lengths::ROOM + 30;

fn set(t: &mut [u64], place: u64, value: u64) {
    if place < (t.len() as u64) {
        t[place as usize] = value;
    }
}

// Puts orders of one price and equal lots into a table, numbered from the first on, as many as fit.
fn put_orders(t: &mut [u64], count: u64, first: u64, price: u64, lots: u64) {
    let fit = count.min((t.len() / lengths::WIDTH) as u64);
    for put in 0..fit {
        let o = Order {
            number: first % 1_000_000 + put,
            price,
            lots,
        };
        orders::store(t, lengths::WIDTH * put as usize, o);
    }
}

// Does what a line asks of one table.
fn edit(t: &mut [u64], w: [u64; 9]) {
    if w[0] == 2 {
        set(t, w[2], w[3]);
        return;
    }
    put_orders(t, w[2], w[3], w[4], w[5]);
}

fn edit_named(buys: &mut [u64], sells: &mut [u64], w: [u64; 9]) {
    if w[1] == 0 {
        edit(buys, w);
        return;
    }
    edit(sells, w);
}

// Prints the session, and the sums of both tables and the room.
fn show(s: Session, buys: &[u64], sells: &[u64], room: &[u64]) {
    says::session(s);
    says::sum(buys);
    says::sum(sells);
    says::sum(room);
    print::end();
}

// Opens a session with the settings of a line, and shows it.
fn opens(w: [u64; 9], buys: &[u64], sells: &[u64], room: &[u64]) -> Session {
    let opened = calling::begin(w);
    let verdict = opened.verdict;
    let r = opened.session;
    says::verdict(verdict);
    show(r, buys, sells, room);
    r
}

// Applies the event of a line, and shows what it left.
fn applies(
    s: Session,
    w: [u64; 9],
    buys: &mut [u64],
    sells: &mut [u64],
    room: &mut [u64],
) -> Session {
    let r = calling::apply_event(s, w, buys, sells, room);
    show(r, buys, sells, room);
    r
}

fn turn(s: Session, w: [u64; 9], buys: &mut [u64], sells: &mut [u64], room: &mut [u64]) -> Session {
    match w[0] {
        0 => opens(w, buys, sells, room),
        1 => setting::session_with(s, w[1], w[2]),
        4 => applies(s, w, buys, sells, room),
        5 => {
            calling::look(s, w, buys, sells);
            s
        }
        _ => {
            edit_named(buys, sells, w);
            s
        }
    }
}

// Takes line after line, to the end of the input; the first session is that of a refused opening.
pub fn run(text: &[u8], buys: &mut [u64], sells: &mut [u64], room: &mut [u64]) {
    let first = calling::begin([0; 9]);
    let mut s = first.session;
    let mut at: usize = 0;
    // no `for` is plainer: the place goes on by the length of each line
    while at < text.len() {
        let l = nine::nine(text, at);
        let w = l.words;
        s = turn(s, w, buys, sells, room);
        at = l.next;
    }
}
