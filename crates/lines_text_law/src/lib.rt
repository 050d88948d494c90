// lines_text_law: the law of the bytes of lines: numerals, forms and grammars.
// It has no code, and may use terms and tables. It promises: reading by a grammar gives the one right answer for any bytes, so a line is read
// back as its value; and putting a form byte by byte puts the line that it makes with its numbers.

#![tactic(auto)]

// Why nothing was read: the bytes end within what is read, or a byte is wrong, the first of them at this place.
#[derive(Clone, Copy, Debug, PartialEq, Eq)]
pub enum LineError {
    Unfinished,
    Wrong(usize),
}

// A value that was read, and the place after it.
#[derive(Clone, Copy)]
pub struct Parsed<T> {
    pub value: T,
    pub next: usize,
}

// Where writing stands: the next place of the room, and how many numbers were used.
#[derive(Clone, Copy)]
pub struct Spot {
    pub at: usize,
    pub used: usize,
}
