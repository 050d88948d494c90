// Prints numbers, with a space after each.
use cases::print;

pub fn count(x: usize) {
    print::number(x as u64);
}

pub fn truth(b: bool) {
    print::number(u64::from(b));
}

// Prints the numbers from one place up to another, as far as there are any.
pub fn part(t: &[u64], from: usize, to: usize) {
    for i in from..to.min(t.len()) {
        print::number(t[i]);
    }
}

pub fn bar() {
    io::write_all(1, b"| ");
}

// How many of the numbers from one place up to another are not 0.
fn nonzero(t: &[u64], from: usize, to: usize) -> u64 {
    let mut found: u64 = 0;
    for i in from..to.min(t.len()) {
        found = found % 1_000_000 + u64::from(t[i] != 0);
    }
    found
}

// Prints how many numbers from one place up to another are not 0, and how many from there on.
pub fn rest(t: &[u64], from: usize, to: usize) {
    print::number(nonzero(t, from, to));
    print::number(nonzero(t, to, t.len()));
}
