// stream_law: what a run comes to that reads its input in pieces and prints what it comes to, or saves each line in a file before it shows its
// text; or that holds all of it against an expected text.
// It has no code, and may use feed_law, resume_law and promises, and what these use. It promises: in whatever pieces a source gives its bytes, all
// is sent that the program says of them, and a comparison answers "same" just where that is what was expected; where a read fails that is told;
// and of a day that is kept, a comparison answers "same" just where the log is that of its file and its input, and all that is saved and all that
// is shown in it is what feed_law says.

#![tactic(auto)]

use feed_law::Run;

// Where a run's bytes come from: a descriptor; or a text that is lent, of which so many bytes were read, and behind which is the end of the
// input, or a read that fails.
// No Option or Result: each variant is a place that bytes come from, and `Gives` says of each by its name what comes.
#[derive(Clone, Copy)]
pub enum Source {
    Live(i32),
    Text(usize),
    Broken(usize),
}

// Where a run's bytes go, and how they fared: all that was handed went to the file and to standard output; or is held against an expected
// text, and is its first so many bytes; or is not what was expected; or some could not be saved, or not be printed.
// No Result: a sink that is shut is handed on as one that is open is, and `StepsBy` says of each by its name how it stands then.
#[derive(Clone, Copy)]
pub enum Sink {
    Print,
    Match(usize),
    Differs,
    Unsaved,
    Lost,
}

// Where bytes are handed to: the file of a day, by its descriptor; or standard output.
// No Option: each variant is a place, and `mark_of`, `descriptor_of` and `failed_at` speak of each by its name.
#[derive(Clone, Copy)]
pub enum Place {
    File(i32),
    Output,
}

// What one write came to: how the sink stands then, and how many bytes were taken.
#[derive(Clone, Copy)]
pub struct Wrote {
    pub to: Sink,
    pub taken: usize,
}

// How a run ended: all was printed; what it printed is what was expected, or is not; its input could not be read; some of it
// could not be saved, or not be printed.
#[derive(Clone, Copy)]
pub enum Finish {
    Printed,
    Same,
    Differs,
    Unread,
    Unsaved,
    Unwritten,
}

// Whether a day is kept: only printed; or kept in the file of a descriptor, so that each line is saved before its text is shown.
// No Option: `says_of` and `end_by` say of each mode by its name what is handed on, and neither is a descriptor that is missing.
#[derive(Clone, Copy)]
pub enum Mode {
    Bare,
    Keeping(i32),
}

// What a call of feed came to: where the run stands, how many bytes were taken, where its output went, whether there are more lines to take.
#[derive(Clone, Copy)]
pub struct Handed {
    pub run: Run,
    pub used: usize,
    pub to: Sink,
    pub more: bool,
}

// Whether to read on: yes; no, since the input or the run is at its end or nothing more may be sent; no, since a read failed.
#[derive(Clone, Copy)]
pub enum Reading {
    On,
    Done,
    Failed,
}

// What is kept from read to read: the run, how many bytes of an unfinished line stand at the buffer's front, where the output went and how
// it fared, and whether to read on.
#[derive(Clone, Copy)]
pub struct Buffered {
    pub run: Run,
    pub have: usize,
    pub to: Sink,
    pub reading: Reading,
}

// Why a day was not kept: its file could not be opened, or not be read.
#[derive(Clone, Copy, Debug, PartialEq, Eq)]
pub enum NotKept {
    NotOpened,
    NotRead,
}
