// cases_settings: settings of many sorts, judged by terms::judge::check: each field in turn at its ends, just past them, off the tick, at 0
// and at the largest 64-bit number. It prints a line for each: the field, its value, and the refusal's number, 0 for none.

#![tactic(auto)]

use terms::{Category, Settings};

const FIELDS: usize = 7;

const VALUES: usize = 18;

// Valid settings, of which one field at a time is changed.
fn plain() -> Settings {
    Settings {
        category: Category::Gems,
        base: 10_000,
        close: 10_000,
        settle: 10_000,
        tick: 5,
        length: 3_600_000,
        days: 0,
        under: 0,
    }
}

// The same with one field set; the fields are base, close, settle, tick, length, days and under, by their numbers.
fn with(field: usize, v: u64) -> Settings {
    let mut g = plain();
    match field {
        0 => g.base = v,
        1 => g.close = v,
        2 => g.settle = v,
        3 => g.tick = v,
        4 => g.length = v,
        5 => g.days = v,
        _ => g.under = v,
    }
    g
}

fn code(g: Settings) -> u64 {
    match terms::judge::check(g) {
        Ok(()) => 0,
        Err(r) => u64::from(r),
    }
}

fn value(i: usize) -> u64 {
    match i {
        0 => 0,
        1 => 1,
        2 => 4,
        3 => 5,
        4 => 366,
        5 => 367,
        6 => 10_000,
        7 => 10_001,
        8 => 3_599_999,
        9 => 3_600_000,
        10 => 49_999_999,
        11 => 50_000_000,
        12 => 50_000_005,
        13 => 86_400_000,
        14 => 86_400_001,
        15 => 100_000_000,
        16 => 100_000_005,
        _ => u64::MAX,
    }
}

fn show(field: usize, v: u64) {
    io::print_decimal(1, field as u64);
    io::write_all(1, b" ");
    io::print_decimal(1, v);
    io::write_all(1, b" ");
    io::print_decimal(1, code(with(field, v)));
    io::write_all(1, b"\n");
}

// Judges a field at every value.
fn show_all(field: usize) {
    for i in 0..VALUES {
        show(field, value(i));
    }
}

fn main() {
    for field in 0..FIELDS {
        show_all(field);
    }
}
