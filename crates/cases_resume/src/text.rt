// Prints an answer as text into a room. What does not fit is left out. An expected answer is shorter than the room, so a text that was cut is
// never taken for a right one.
ghost use Rattle.std.specs.Prelude.{◌≤◌, length};

use engine::looking;
use resume_law::Comeback;
use state_law::Session;
use tables::lengths;
use terms::Side;

// The room for an answer: three lines of words, and for each number of both tables nine digits and a space.
pub const ROOM: usize = lengths::TABLE * 20 + 64;

// The number of an answer's refusal, 0 for none.
pub fn code_of(answer: Comeback) -> u64 {
    match answer {
        Ok(_) => 0,
        Err(bad) => u64::from(bad.refusal),
    }
}

// How many bytes count, or the bad line's place.
pub fn place_of(answer: Comeback) -> u64 {
    match answer {
        Ok(count) => count as u64,
        Err(bad) => bad.place as u64,
    }
}

// Puts bytes from `at` on, and answers the place behind them.
fn put(room: &mut [u8], at: usize, bytes: &[u8]) -> usize
    requires { at ≤ length room.old }
    ensures { result ≤ length room.old }
{
    let fit = bytes.len().min(room.len() - at);
    room[at..at + fit].copy_from_slice(&bytes[..fit]);
    at + fit
}

fn put_number(room: &mut [u8], at: usize, x: u64) -> usize
    requires { at ≤ length room.old }
    ensures { result ≤ length room.old }
{
    let mut digits = [0u8; 20];
    let n = io::decimal(x, &mut digits);
    put(room, at, &digits[0..n])
}

// Puts a number, and before it a space unless it is the first of its line.
fn put_next(room: &mut [u8], at: usize, first: bool, x: u64) -> usize
    requires { at ≤ length room.old }
    ensures { result ≤ length room.old }
{
    if first {
        return put_number(room, at, x);
    }
    let behind = put(room, at, b" ");
    put_number(room, behind, x)
}

fn put_numbers(room: &mut [u8], at: usize, xs: &[u64]) -> usize
    requires { at ≤ length room.old }
    ensures { result ≤ length room.old }
{
    let mut to = at;
    for (i, x) in xs.iter().enumerate() {
        to = put_next(room, to, i == 0, *x);
    }
    to
}

// Puts the line of a side.
fn put_side(room: &mut [u8], at: usize, name: &[u8], live: &[u64]) -> usize
    requires { at ≤ length room.old }
    ensures { result ≤ length room.old }
{
    let named = put(room, at, name);
    let listed = put_numbers(room, named, live);
    put(room, listed, b"\n")
}

// Puts the first line.
fn put_answer(room: &mut [u8], code: u64, place: u64) -> usize
    ensures { result ≤ length room.old }
{
    let named = put(room, 0, b"code=");
    let coded = put_number(room, named, code);
    let between = put(room, coded, b" at=");
    let placed = put_number(room, between, place);
    put(room, placed, b"\n")
}

// Puts the lines of both sides.
fn put_sides<'a>(
    room: &mut [u8],
    at: usize,
    session: Session,
    buys: &'a [u64],
    sells: &'a [u64],
) -> usize
    requires { at ≤ length room.old }
    ensures { result ≤ length room.old }
{
    let bids = looking::view(Side::Buy, session, buys, sells);
    let bought = put_side(room, at, b"buys: ", bids);
    let offers = looking::view(Side::Sell, session, buys, sells);
    put_side(room, bought, b"sells: ", offers)
}

// Puts a whole answer, and says how long it is.
pub fn put_all<'a>(
    room: &mut [u8],
    answer: Comeback,
    session: Session,
    buys: &'a [u64],
    sells: &'a [u64],
) -> usize
    ensures { result ≤ length room.old }
{
    let code = code_of(answer);
    let place = place_of(answer);
    let told = put_answer(room, code, place);
    if code != 0 {
        return told;
    }
    put_sides(room, told, session, buys, sells)
}
