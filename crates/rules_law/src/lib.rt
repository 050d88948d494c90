// rules_law: what the circulars compute, as types, definitions (specs/) and the laws that hold of them (proofs/).
// It has no code and may use terms. It promises: percents, cooling-off, range, mark and half hour are the circulars' numbers; the ends of a
// band and all averages are rounded as document 01 says, and a greater percent gives a wider band; a growth factor is the paper's sum rounded
// down, and a theoretical price is 1 to 110,600,000, whatever underlying is known and however many days are left; two steps of time are one.

#![tactic(auto)]

// A row of the table of slabs: the two percents of a category.
#[derive(Clone, Copy)]
pub struct Row {
    pub initial: u64,
    pub enhanced: u64,
}

// The trades of the running minute: how many, and the sum of their prices.
#[derive(Clone, Copy)]
pub struct Minute {
    pub count: u64,
    pub sum: u64,
}

// The reference price, and the minute that the next boundary will close.
#[derive(Clone, Copy)]
pub struct Reckoning {
    pub reference: u64,
    pub minute: Minute,
}

// What the execution range is judged by: the initial percent and the reference price.
#[derive(Clone, Copy)]
pub struct Range {
    pub percent: u64,
    pub reference: u64,
}

// Trades added up: how many, their lots, and the sum of price times lots.
#[derive(Clone, Copy)]
pub struct Tally {
    pub count: u64,
    pub lots: u64,
    pub value: u64,
}

// What is remembered of the day's trades: how many, the prices and lots of the last ten, oldest first (with fewer than ten, the
// first places), and the trades of the closing half hour.
#[derive(Clone, Copy)]
pub struct Tape {
    pub trades: u64,
    pub prices: [u64; 10],
    pub sizes: [u64; 10],
    pub half: Tally,
}
