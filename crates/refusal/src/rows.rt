// The rows of the table of refusals, 2 to 11, for an event on a day.
ghost use Rattle.std.specs.Prelude.{◌≡◌, cond, ◌≤◌, leb, ltb, length};
ghost use Rattle.terms.specs.Sizes.{slots, sizes};
ghost use Rattle.tables.specs.Lengths.{table_length};
ghost use Rattle.tables.specs.Tables.{decode};
ghost use Rattle.book_law.specs.Priority.{rests};
ghost use Rattle.terms.specs.Truth.{◌⊓◌};
ghost use Rattle.terms.specs.Numbers.{is_price, is_lots, is_time, is_number, on_tick};
ghost use Rattle.terms.specs.Options.{of_any};
ghost use Rattle.terms.specs.Carried.{carries};
ghost use Rattle.terms.specs.Refusals.{first_failed};
ghost use Rattle.rules_law.specs.Slabs.{in_band};
ghost use Rattle.state_law.specs.Now.{Clocked, band_now};
ghost use Rattle.state_law.specs.Clock.{clock_step};
ghost use Rattle.soundness_law.specs.Sound.{day_in};
ghost use Rattle.refusal_law.specs.Refusals.{rests_on, life_has_place, number_left, book_rules, market_rules, later_rules, refusal_of};
ghost use Rattle.refusal_law.specs.code.Tabled.{Tabled, live_on, place_on};

use state::clock;
use state_law::Session;
use tables::side::Orders;
use terms::parts::Parts;
use terms::{Entry, Event, Life, Refusal, Side, Verdict, numbers, parts, sizes};

// Row 4: whether every number that the event carries is in its range.
fn numbers_right(t: u64, p: Parts) -> bool
    ensures { result ≡ (is_time t ⊓ (of_any is_lots p.lots ⊓ of_any is_price p.price ⊓ of_any is_number p.number)) }
{
    let time = numbers::is_time(t);
    let sized = p.lots.is_none_or(numbers::is_lots);
    let priced = p.price.is_none_or(numbers::is_price);
    let named = p.number.is_none_or(numbers::is_number);
    time & (sized & priced & named)
}

// Row 6: whether the close comes at the length or after it, and any other event before.
fn in_hours(closes: bool, t: u64, length: u64) -> bool
    ensures { result ≡ cond closes (leb length t) (ltb t length) }
{
    if closes {
        return length <= t;
    }
    t < length
}

// Row 7: whether a limit or settlement is a multiple of the tick.
fn tick_right(tick: u64, ticked: Option<u64>) -> bool
    requires { 1 ≤ tick }
    ensures { result ≡ of_any (on_tick tick) ticked }
{
    ticked.is_none_or(|price| numbers::on_tick(tick, price))
}

// Row 8: whether a limit lies in the band after the clock steps.
fn band_right(s: Session, t: u64, limit: Option<u64>) -> bool
    requires { Clocked s }
    ensures { result ≡ of_any (in_band (band_now (clock_step s t))) limit }
{
    limit.is_none_or(|price| rules::slabs::in_band(clock::band_at(s, t), price))
}

// Whether an order rests among the first orders of a table.
fn rests_in(table: &[u64], count: u64, number: u64) -> bool
    requires { (count ≤ slots) × (table_length ≤ length table.now) }
    ensures { result ≡ rests number (decode count table.now) }
{
    let orders = Orders {
        table,
        count: count as usize,
    };
    book::side::is_resting(orders, number)
}

// Row 9: whether the order to cancel rests.
fn finds_it(s: Session, number: Option<u64>, buys: &[u64], sells: &[u64]) -> bool
    requires { Tabled s buys.now sells.now }
    ensures { result ≡ of_any (rests_on (day_in s buys.now sells.now)) number }
{
    number.is_none_or(|n| rests_in(buys, s.live.buys, n) || rests_in(sells, s.live.sells, n))
}

// How many orders of a side are live.
fn held(s: Session, side: Side) -> u64
    ensures { result ≡ live_on side s }
{
    match side {
        Side::Buy => s.live.buys,
        Side::Sell => s.live.sells,
    }
}

fn life_has_place(life: Life, held: u64) -> bool
    ensures { result ≡ life_has_place sizes life held }
{
    match life {
        Life::AllDay => held < (sizes::SLOTS as u64),
        Life::Ioc => true,
    }
}

// Row 10: whether the side of a day order has a free place.
fn has_place(s: Session, entry: Option<Entry>) -> bool
    ensures { result ≡ of_any (place_on s) entry }
{
    entry.is_none_or(|n| life_has_place(n.life, held(s, n.side)))
}

// Row 11: whether an order can get a number, and its trades have room in the day.
fn has_numbers(given: u64, trades: u64, entry: Option<Entry>) -> bool
    ensures { result ≡ of_any (number_left sizes given trades) entry }
{
    entry.is_none_or(|_| (given < sizes::NUMBERS) & (trades <= sizes::TRADES))
}

// Rows 8 to 11, which look at the book; p are the parts of the event's act. Each row is a test with its refusal, as in the document's table.
fn book_rows(s: Session, e: Event, p: Parts, buys: &[u64], sells: &[u64]) -> Verdict
    requires { Clocked s × Tabled s buys.now sells.now × (p ≡ carries e.act) }
    ensures { result ≡ first_failed (book_rules sizes (day_in s buys.now sells.now) e) }
{
    if !band_right(s, e.time, p.limit) {
        return Err(Refusal::OutsideBand);
    }
    if !finds_it(s, p.number, buys, sells) {
        return Err(Refusal::NotResting);
    }
    if !has_place(s, p.entry) {
        return Err(Refusal::SideFull);
    }
    if !has_numbers(s.live.given, s.tape.trades, p.entry) {
        return Err(Refusal::DayFull);
    }
    Ok(())
}

// Rows 6 and 7, which look at the settings, then those of the book.
fn market_rows(s: Session, e: Event, p: Parts, buys: &[u64], sells: &[u64]) -> Verdict
    requires { Clocked s × Tabled s buys.now sells.now × (p ≡ carries e.act) }
    ensures { result ≡ first_failed (market_rules sizes (day_in s buys.now sells.now) e) }
{
    if !in_hours(p.closes, e.time, s.settings.length) {
        return Err(Refusal::OutOfHours);
    }
    if !tick_right(s.settings.tick, p.ticked) {
        return Err(Refusal::OffTick);
    }
    book_rows(s, e, p, buys, sells)
}

// Rows 3 to 5, which look at the event and the clock, then the others.
fn event_rows(s: Session, e: Event, buys: &[u64], sells: &[u64]) -> Verdict
    requires { Clocked s × Tabled s buys.now sells.now }
    ensures { result ≡ first_failed (later_rules sizes (day_in s buys.now sells.now) e) }
{
    let p = parts::carried(e.act);
    let running = !s.clock.closed;
    if !running {
        return Err(Refusal::Closed);
    }
    if !numbers_right(e.time, p) {
        return Err(Refusal::NumberRange);
    }
    let forward = s.clock.time <= e.time;
    if !forward {
        return Err(Refusal::TimeBack);
    }
    market_rows(s, e, p, buys, sells)
}

// The first row from 2 to 11 that applies to an event.
pub fn verdict(s: Session, e: Event, buys: &[u64], sells: &[u64]) -> Verdict
    requires { (table_length ≤ length buys.now) × (table_length ≤ length sells.now) }
    ensures { result ≡ refusal_of (day_in s buys.now sells.now) e }
{
    if !soundness::is_sound(s, buys, sells) {
        return Err(Refusal::Unsound);
    }
    event_rows(s, e, buys, sells)
}
