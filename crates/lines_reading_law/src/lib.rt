// lines_reading_law: the law of session lines that are read: what the line of settings and of an event is, and the grammars that read them.
// It has no code, and may use terms and lines_text_law. It promises: the answer by the grammar is the one right answer for any bytes, each
// line is read back as its value, and two values never share a line.

#![tactic(auto)]

// The acts that carry one number.
#[derive(Clone, Copy)]
pub enum Single {
    Withdraw,
    Under,
    Finish,
}
