// The paper's number of each refusal, report kind, reason and category, and the ranges of its numbers.
ghost use Rattle.std.specs.Prelude.{◌≡◌, ◌<◌};
ghost use Rattle.terms.specs.Numbers.{is_price, is_lots, is_time, is_number, on_tick};
ghost use Rattle.terms.specs.Refusals.{number_of};
ghost use Rattle.terms.specs.Reports.{kind_of, why_of};
ghost use Rattle.terms.specs.Categories.{row_of};

use crate::{Category, Refusal, Said, Why, sizes};

impl From<Refusal> for u64 {
    ghost from_gives = { λ refusal n. n ≡ number_of refusal };

    fn from(refusal: Refusal) -> u64 {
        match refusal {
            Refusal::SmallRoom => 1,
            Refusal::Unsound => 2,
            Refusal::Closed => 3,
            Refusal::NumberRange => 4,
            Refusal::TimeBack => 5,
            Refusal::OutOfHours => 6,
            Refusal::OffTick => 7,
            Refusal::OutsideBand => 8,
            Refusal::NotResting => 9,
            Refusal::SideFull => 10,
            Refusal::DayFull => 11,
            Refusal::SettingsRange => 12,
            Refusal::SettingsOffTick => 13,
            Refusal::LineUnfinished => 14,
            Refusal::LineWrong => 15,
            Refusal::SmallLineRoom => 16,
            Refusal::NumberLong => 17,
            Refusal::LineRefused => 22,
        }
    }
}

impl From<Why> for u64 {
    ghost from_gives = { λ why n. n ≡ why_of why };

    fn from(why: Why) -> u64 {
        match why {
            Why::Asked => 1,
            Why::Immediate => 2,
            Why::OutOfRange => 3,
            Why::OutsideBand => 4,
            Why::DayEnd => 5,
        }
    }
}

// The row of a category in the table of slabs, counted from 0.
impl From<Category> for u64 {
    ghost from_gives = { λ category n. n ≡ row_of category };

    fn from(category: Category) -> u64 {
        match category {
            Category::Broad => 0,
            Category::Narrow => 1,
            Category::Sensitive => 2,
            Category::Energy => 3,
            Category::Metals => 4,
            Category::Precious => 5,
            Category::Gems => 6,
            Category::Other => 7,
        }
    }
}

// The number of a report's kind. It is a function and no `From`, since the number leaves out all that the report says of its kind.
pub fn of_said(s: Said) -> u64
    ensures { result ≡ kind_of s }
{
    match s {
        Said::Accept(_) => 1,
        Said::Trade(_) => 2,
        Said::Convert(_) => 3,
        Said::Cancel(_) => 4,
        Said::Slab(_) => 5,
        Said::Ref(_) => 6,
        Said::Close(_) => 7,
    }
}

pub fn is_price(x: u64) -> bool
    ensures { result ≡ is_price x }
{
    (1 <= x) & (x <= sizes::PRICE)
}

pub fn is_lots(x: u64) -> bool
    ensures { result ≡ is_lots x }
{
    (1 <= x) & (x <= sizes::LOTS)
}

pub fn is_time(x: u64) -> bool
    ensures { result ≡ is_time x }
{
    x <= sizes::TIME
}

pub fn is_number(x: u64) -> bool
    ensures { result ≡ is_number x }
{
    (1 <= x) & (x <= sizes::NUMBERS)
}

// Whether x is a multiple of the tick.
pub fn on_tick(tick: u64, x: u64) -> bool
    requires { 0 < tick }
    ensures { result ≡ on_tick tick x }
{
    x % tick == 0
}
