// Sets a number of a session, by its place in this list:
//   1 base, 2 close, 3 settle, 4 tick, 5 length, 6 days, 7 under, all of the settings;
//   8 time, 9 closed, 10 buys, 11 sells, 12 widened, 13 cooling, 14 under, 15 given;
//   16 reference, 17 count and 18 sum of the minute, 19 trades, 20 count, 21 lots and 22 value of the half hour;
//   30 to 39 the remembered prices, 40 to 49 their lots.
use rules_law::{Reckoning, Tape};
use state_law::Session;
use terms::{Category, Settings};

pub fn category_of(x: u64) -> Category {
    match x {
        0 => Category::Broad,
        1 => Category::Narrow,
        2 => Category::Sensitive,
        3 => Category::Energy,
        4 => Category::Metals,
        5 => Category::Precious,
        6 => Category::Gems,
        _ => Category::Other,
    }
}

fn in_settings(g: Settings, field: u64, v: u64) -> Settings {
    let mut r = g;
    match field {
        1 => r.base = v,
        2 => r.close = v,
        3 => r.settle = v,
        4 => r.tick = v,
        5 => r.length = v,
        6 => r.days = v,
        _ => r.under = v,
    }
    r
}

fn in_session(s: Session, field: u64, v: u64) -> Session {
    let mut r = s;
    match field {
        8 => r.clock.time = v,
        9 => r.clock.closed = v == 1,
        10 => r.live.buys = v,
        11 => r.live.sells = v,
        12 => r.clock.widened = v,
        13 => r.clock.cooling = v,
        14 => r.clock.under = v,
        _ => r.live.given = v,
    }
    r
}

fn in_reckoning(old: Reckoning, field: u64, v: u64) -> Reckoning {
    let mut r = old;
    match field {
        16 => r.reference = v,
        17 => r.minute.count = v,
        _ => r.minute.sum = v,
    }
    r
}

fn in_tape(old: Tape, field: u64, v: u64) -> Tape {
    let mut r = old;
    match field {
        19 => r.trades = v,
        20 => r.half.count = v,
        21 => r.half.lots = v,
        _ => r.half.value = v,
    }
    r
}

fn in_remembered(old: Tape, field: u64, v: u64) -> Tape {
    let mut r = old;
    let i = (field % 10) as usize;
    if field < 40 {
        r.prices[i] = v;
        return r;
    }
    r.sizes[i] = v;
    r
}

pub fn session_with(s: Session, field: u64, v: u64) -> Session {
    let mut r = s;
    if field < 8 {
        r.settings = in_settings(s.settings, field, v);
        return r;
    }
    if field < 16 {
        return in_session(s, field, v);
    }
    if field < 19 {
        r.reckoning = in_reckoning(s.reckoning, field, v);
        return r;
    }
    if field < 30 {
        r.tape = in_tape(s.tape, field, v);
        return r;
    }
    r.tape = in_remembered(s.tape, field, v);
    r
}
