// book_sound_law: what a sound book is, by the conditions of document 01, and the one pass over each table that judges them.
// It has no code and may use terms, tables, rules_law and book_law. It promises: the pass finds what the conditions say; an incoming order,
// a cancelled order and a wider band leave a sound book sound.

#![tactic(auto)]

// What live orders are judged by: the numbers given, the tick and its factor, and the ends of the band.
#[derive(Clone, Copy)]
pub struct Limits {
    pub given: u64,
    pub tick: u64,
    pub factor: u64,
    pub low: u64,
    pub high: u64,
}
