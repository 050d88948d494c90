// What no file of a case can show: each lent slice is lent too short once, which is answered 1 and touches nothing; and one number of the
// sells is changed by hand after a call, which the check of the tables has to see.
ghost use Rattle.std.specs.Prelude.{◌+◌, ◌<◌, ◌≤◌};
ghost use Rattle.tables.specs.Lengths.{table_length, room_length};

use crate::{alike, judging, lending, text};
use resume_law::Comeback;
use tables::lengths;

// One number fewer than a table must have.
const SHORT: usize = lengths::TABLE - 1;

// Prints an answer, and whether all that was lent is as it was.
fn tell(answer: Comeback, kept: bool) {
    let code = text::code_of(answer);
    let place = text::place_of(answer);
    io::print_decimal(1, code);
    io::write_all(1, b" at ");
    io::print_decimal(1, place);
    if kept {
        io::write_all(1, b", all as lent\n");
        return;
    }
    io::write_all(1, b", CHANGED\n");
}

// Resumes on tables of which one is too short, and prints a line.
fn short_table(name: &[u8], saved: &[u8], buys: &mut [u64], sells: &mut [u64]) {
    let r = resume::resume(saved, buys, sells);
    let answer = r.answer;
    let bought = alike::all_are(buys, lending::MARK);
    let sold = alike::all_are(sells, lending::MARK);
    io::write_all(1, name);
    tell(answer, bought & sold);
}

// Lends `resume` each table too short.
fn short_tables(saved: &[u8]) {
    let mut long = [lending::MARK; lending::LONG];
    let mut short = [lending::MARK; SHORT];
    short_table(b"resume, buys too short: ", saved, &mut short, &mut long);
    short_table(b"resume, sells too short: ", saved, &mut long, &mut short);
}

// How many numbers of a slice are lent: one too few where it is the short one, else more than it must have.
fn lent_of(full: usize, short: bool) -> usize
    requires { (0 < full) × (full ≤ room_length) }
    ensures { result ≤ full + 12 }
{
    if short {
        return full - 1;
    }
    full + 12
}

// Comes back with lent scratch, and prints what was answered.
fn short_lent(
    saved: &[u8],
    buys: &mut [u64],
    sells: &mut [u64],
    bought: &mut [u64],
    sold: &mut [u64],
    room: &mut [u64],
) {
    let r = resume::resume_lent(saved, buys, sells, bought, sold, room);
    let answer = r.answer;
    let tables = alike::all_are(buys, lending::MARK) & alike::all_are(sells, lending::MARK);
    let spare = alike::all_are(bought, lending::MARK) & alike::all_are(sold, lending::MARK);
    let roomy = alike::all_are(room, lending::MARK);
    tell(answer, tables & spare & roomy);
}

// Lends `resume_lent` the slice of a number, counted from 0, too short.
fn short_slice(saved: &[u8], which: usize) {
    let mut buys = [lending::MARK; lending::LONG];
    let mut sells = [lending::MARK; lending::LONG];
    let mut bought = [lending::MARK; lending::LONG];
    let mut sold = [lending::MARK; lending::LONG];
    let mut room = [lending::MARK; lending::ROOMY];
    let nbuys = lent_of(lengths::TABLE, which == 0);
    let nsells = lent_of(lengths::TABLE, which == 1);
    let nbought = lent_of(lengths::TABLE, which == 2);
    let nsold = lent_of(lengths::TABLE, which == 3);
    let nroom = lent_of(lengths::ROOM, which == 4);
    short_lent(
        saved,
        &mut buys[0..nbuys],
        &mut sells[0..nsells],
        &mut bought[0..nbought],
        &mut sold[0..nsold],
        &mut room[0..nroom],
    );
}

// Prints the name of a slice that is lent to `resume_lent`, and answers as `write_all` does.
fn name(which: usize) -> bool {
    match which {
        0 => io::write_all(1, b"buys"),
        1 => io::write_all(1, b"sells"),
        2 => io::write_all(1, b"spare buys"),
        3 => io::write_all(1, b"spare sells"),
        _ => io::write_all(1, b"room"),
    }
}

// Lends `resume_lent` each of its five slices too short.
fn short_slices(saved: &[u8]) {
    for which in 0..5 {
        io::write_all(1, b"resume_lent, ");
        name(which);
        io::write_all(1, b" too short: ");
        short_slice(saved, which);
    }
}

// Comes back, changes one number of the sells, and prints whether the check of the tables sees it.
fn spoil(after: &[u8], saved: &[u8], place: usize)
    requires { place < table_length + 12 }
{
    let mut buys = [lending::MARK; lending::LONG];
    let mut sells = [lending::MARK; lending::LONG];
    let r = resume::resume(saved, &mut buys, &mut sells);
    let answer = r.answer;
    let session = r.session;
    sells[place] = 5;
    io::write_all(1, after);
    io::write_all(1, b", sells changed at ");
    io::print_decimal(1, place as u64);
    if judging::are_left(answer, session, saved, &buys, &sells) {
        io::write_all(1, b": NOT SEEN\n");
        return;
    }
    io::write_all(1, b": seen\n");
}

// Prints a line for each control. The saved bytes are a settings line, then an order.
pub fn all() {
    let opened =
        b"cat=gems base=10000 close=10000 settle=10000 tick=5 len=3600000 days=0 under=0\n";
    let sold =
        b"cat=gems base=10000 close=10000 settle=10000 tick=5 len=3600000 days=0 under=0\nt=0 do=sell kind=limit life=day qty=4 price=10150\n";
    short_tables(sold);
    short_slices(sold);
    short_tables(b"no settings");
    spoil(b"after an order", sold, lengths::WIDTH);
    spoil(b"after an order", sold, SHORT);
    spoil(b"after an order", sold, lengths::TABLE);
    spoil(b"after an order", sold, lending::LONG - 1);
    spoil(b"after settings alone", opened, 0);
    spoil(b"after a refusal", b"no settings", 0);
}
