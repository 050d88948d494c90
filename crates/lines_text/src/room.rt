// Forms are put into a lent room with their numbers: in one pass over the form, and each digit at its place at once.
ghost use Rattle.std.specs.Prelude.{◌≡◌, ◌+◌, ◌≤◌, length, get_or, drop};
ghost use Rattle.terms.specs.Sizes.{written_most};
ghost use Rattle.lines_text_law.specs.Numerals.{numeral, all_writable};
ghost use Rattle.lines_text_law.specs.Forms.{piece, taken, fill, holes};
ghost use Rattle.lines_text_law.specs.code.Room.{Put, PutFrom, Fits, PieceFits};

use lines_text_law::Spot;
use terms::sizes;

// Whether every number can be written.
pub fn all_writable(numbers: &[u64]) -> bool
    ensures { result ≡ all_writable numbers.now }
{
    numbers.iter().all(|&n| n <= sizes::DIGITS)
}

// How many digits a number has.
fn digits(v: u64) -> usize
    requires { v ≤ written_most }
    ensures { result ≡ length (numeral v) }
{
    if v < 10 {
        return 1;
    }
    if v < 100 {
        return 2;
    }
    if v < 1_000 {
        return 3;
    }
    if v < 10_000 {
        return 4;
    }
    if v < 100_000 {
        return 5;
    }
    if v < 1_000_000 {
        return 6;
    }
    if v < 10_000_000 {
        return 7;
    }
    if v < 100_000_000 {
        return 8;
    }
    9
}

// Puts the numeral of v from `at` on, its last digit first, and answers the place after it.
fn put_number(room: &mut [u8], at: usize, v: u64) -> usize
    requires { (v ≤ written_most) × (at + length (numeral v) ≤ length room.old) }
    ensures { Put room.old at (numeral v) room.new result }
{
    let end = at + digits(v);
    let mut p = end;
    let mut w = v;
    // no `for` is plainer: the number gets shorter, and no place is counted
    while 10 <= w {
        p -= 1;
        room[p] = b'0' + (w % 10) as u8;
        w /= 10;
    }
    room[at] = b'0' + w as u8;
    end
}

// Puts what a byte of a form stands for: the next number where it is #, else itself.
fn put_piece(room: &mut [u8], from: Spot, b: u8, numbers: &[u64]) -> Spot
    requires { PieceFits room.old from b numbers.now }
    ensures { PutFrom room.old from (piece b (get_or numbers.now from.used 0)) (taken b) room.new result }
{
    let at = from.at;
    let used = from.used;
    if b == b'#' {
        let end = put_number(room, at, numbers[used]);
        return Spot {
            at: end,
            used: used + 1,
        };
    }
    room[at] = b;
    Spot { at: at + 1, used }
}

// Puts a form, filled with the numbers that are not used yet, and answers the spot after it.
pub fn put_form(room: &mut [u8], from: Spot, form: &[u8], numbers: &[u64]) -> Spot
    requires { Fits room.old from form.now numbers.now }
    ensures { PutFrom room.old from (fill form.now (drop from.used numbers.now)) (holes form.now) room.new result }
{
    let mut spot = from;
    for &b in form {
        spot = put_piece(room, spot, b, numbers);
    }
    spot
}
