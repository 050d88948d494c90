// terms: the paper's words as types, in which every crate above speaks.
// It may use nothing. It promises: refusals, report kinds, reasons and categories have the paper's numbers, and an act has the parts that it
// carries, each by a definition in specs/ and a function proved equal to it; settings are judged by 12 and then 13, for any 64-bit numbers
// whatever.

#![tactic(auto)]

pub mod judge;
pub mod numbers;
pub mod parts;
pub mod sizes;
pub mod ticks;

// What the contract is on (document 01, "Slabs"), in the words of session lines.
#[derive(Clone, Copy, Debug, PartialEq, Eq)]
pub enum Category {
    Broad,
    Narrow,
    Sensitive,
    Energy,
    Metals,
    Precious,
    Gems,
    Other,
}

// One contract on one day. Prices in paise, times in milliseconds from the open; an underlying of 0 means none known, and is no Option, since
// lines and the numbers that apps keep (the C interface) have the 0.
#[derive(Clone, Copy, Debug, PartialEq, Eq)]
pub struct Settings {
    pub category: Category,
    pub base: u64,
    pub close: u64,
    pub settle: u64,
    pub tick: u64,
    pub length: u64,
    pub days: u64,
    pub under: u64,
}

#[derive(Clone, Copy, Debug, PartialEq, Eq)]
pub enum Side {
    Buy,
    Sell,
}

// A limit order carries its price, a market order carries none. It is no `Option<u64>`, since limit and market are the paper's words.
#[derive(Clone, Copy, Debug, PartialEq, Eq)]
pub enum Kind {
    Limit(u64),
    Market,
}

// How long an order lives: all day (the paper's "day"), or immediate or cancel.
#[derive(Clone, Copy, Debug, PartialEq, Eq)]
pub enum Life {
    AllDay,
    Ioc,
}

// An order that comes in.
#[derive(Clone, Copy, Debug, PartialEq, Eq)]
pub struct Entry {
    pub side: Side,
    pub kind: Kind,
    pub life: Life,
    pub lots: u64,
}

// What an event does: buy or sell, cancel an order by its number, set the underlying, let time pass, or close with today's settlement.
#[derive(Clone, Copy, Debug, PartialEq, Eq)]
pub enum Act {
    Enter(Entry),
    Withdraw(u64),
    Under(u64),
    Clock,
    Finish(u64),
}

#[derive(Clone, Copy, Debug, PartialEq, Eq)]
pub struct Event {
    pub time: u64,
    pub act: Act,
}

// An order that rests, with the lots that it has left; or a part of an order, that traded or was cancelled.
#[derive(Clone, Copy, Debug, PartialEq, Eq)]
pub struct Order {
    pub number: u64,
    pub price: u64,
    pub lots: u64,
}

// The lowest and the highest price of the band: a limit outside it is refused.
#[derive(Clone, Copy, Debug, PartialEq, Eq)]
pub struct Band {
    pub low: u64,
    pub high: u64,
}

// Why an order, or its remainder, was cancelled.
#[derive(Clone, Copy, Debug, PartialEq, Eq)]
pub enum Why {
    Asked,
    Immediate,
    OutOfRange,
    OutsideBand,
    DayEnd,
}

#[derive(Clone, Copy, Debug, PartialEq, Eq)]
pub struct Deal {
    pub buy: u64,
    pub sell: u64,
    pub lots: u64,
    pub price: u64,
}

#[derive(Clone, Copy, Debug, PartialEq, Eq)]
pub struct Ended {
    pub number: u64,
    pub lots: u64,
    pub why: Why,
}

// The close price and the next day's base.
#[derive(Clone, Copy, Debug, PartialEq, Eq)]
pub struct Closing {
    pub price: u64,
    pub base: u64,
}

// What a report says, by its seven kinds.
#[derive(Clone, Copy, Debug, PartialEq, Eq)]
pub enum Said {
    Accept(u64),
    Trade(Deal),
    Convert(Order),
    Cancel(Ended),
    Slab(Band),
    Ref(u64),
    Close(Closing),
}

#[derive(Clone, Copy, Debug, PartialEq, Eq)]
pub struct Report {
    pub time: u64,
    pub said: Said,
}

// The rows of document 01's table of refusals, in its order; then those of document 02.
#[derive(Clone, Copy, Debug, PartialEq, Eq)]
pub enum Refusal {
    SmallRoom,
    Unsound,
    Closed,
    NumberRange,
    TimeBack,
    OutOfHours,
    OffTick,
    OutsideBand,
    NotResting,
    SideFull,
    DayFull,
    SettingsRange,
    SettingsOffTick,
    LineUnfinished,
    LineWrong,
    SmallLineRoom,
    NumberLong,
    LineRefused,
}

// A judgement: nothing applies, or the first refusal that does.
pub type Verdict = Result<(), Refusal>;
