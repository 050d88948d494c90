// resume_law: the law of coming back: what saved bytes are rebuilt to, and what a call that resumes leaves.
// It has no code, and may use engine_law and the laws of lines, and what these use. It promises: the saved lines of an accepted run, cut
// after any byte, come back as the settings and all whole events; any bytes are answered in exactly one way, by their first bad line; and in
// whatever pieces a file is read, the same comes back.

#![tactic(auto)]

use state_law::Session;
use terms::Refusal;

// The first bad line of saved bytes: its refusal, and its place counted from the first saved byte.
#[derive(Clone, Copy, Debug, PartialEq, Eq)]
pub struct BadLine {
    pub refusal: Refusal,
    pub place: usize,
}

// What saved bytes are answered: how many of them count, or their first bad line.
pub type Comeback = Result<usize, BadLine>;

// The answer, and the session that comes back.
#[derive(Clone, Copy)]
pub struct Resumed {
    pub answer: Comeback,
    pub session: Session,
}

// Why an event line of saved bytes is not applied: it is refused by the engine; it is the start of a line or nothing at all; it is wrong, with
// the place in the line.
#[derive(Clone, Copy, Debug, PartialEq, Eq)]
pub enum Halt {
    Refused,
    Unfinished,
    Wrong(usize),
}

// What the next event line of saved bytes comes to: applied, with its length, or why not.
pub type SavedLine = Result<usize, Halt>;

// The line, and the session after it.
#[derive(Clone, Copy)]
pub struct LineReplayed {
    pub line: SavedLine,
    pub session: Session,
}

// Where the replay of lines halts: at a line that is not applied, or at the end of the bytes; its place, the session, and whether an event
// was among the lines before it.
#[derive(Clone, Copy)]
pub struct Halted {
    pub halt: Halt,
    pub at: usize,
    pub session: Session,
    pub moved: bool,
}

// The answer, the session, and whether an event was among the lines.
#[derive(Clone, Copy)]
pub struct Replayed {
    pub answer: Comeback,
    pub session: Session,
    pub moved: bool,
}

// ---- a file that is read in pieces

// What a file brought back: the answer and the session, and whether it could be read, to its end or to a bad line.
#[derive(Clone, Copy)]
pub struct Back {
    pub answer: Comeback,
    pub session: Session,
    pub read: bool,
}

// What the lines of a piece came to: how many of its bytes were taken, how many of all, what came back, and whether more may follow.
#[derive(Clone, Copy)]
pub struct Passed {
    pub used: usize,
    pub before: usize,
    pub back: Back,
    pub more: bool,
}

// What is kept from piece to piece: how many bytes stand at the buffer's front, how many were taken before them, what came back, and whether
// to go on.
#[derive(Clone, Copy)]
pub struct Coming {
    pub have: usize,
    pub before: usize,
    pub back: Back,
    pub more: bool,
}
