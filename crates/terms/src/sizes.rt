// The sizes of the base, each named once for code; specs/Sizes.antt names each once for definitions.
// A session's counts are u64 and places are usize: where they meet stands an `as`, since std has no From between them and the proof has the bound.

// How many orders a side can hold.
pub const SLOTS: usize = 256;

// The bytes that a line room must have.
pub const LINE: usize = 128;

// How many order numbers a day has, and how many trades may have been made when an order comes in.
pub const NUMBERS: u64 = 60_000;

pub const TRADES: u64 = 59_744;

// The greatest price, quantity and time.
pub const PRICE: u64 = 100_000_000;

pub const LOTS: u64 = 10_000;

pub const TIME: u64 = 86_400_000;

// The ends of the ranges that only settings have.
pub const BASE: u64 = 50_000_000;

pub const TICK: u64 = 10_000;

pub const SHORTEST: u64 = 3_600_000;

pub const DAYS: u64 = 366;

// The greatest number that a line can hold.
pub const DIGITS: u64 = 999_999_999;
