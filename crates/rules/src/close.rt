// The tape of trades, and what the close makes of it: the close price and the next day's base (000).
ghost use Rattle.std.specs.Prelude.{◌≡◌, ◌*◌, ◌≤◌, ◌<◌};
ghost use Rattle.terms.specs.Sizes.{price_most, lots_most, trades_most, length_least, tick_most};
ghost use Rattle.rules_law.specs.Close.{in_half_hour, tallied, tally_all, no_tally, half_after, remembered, tape_after, last_of, last_or, last_lots, average, closing_of, TallyFits, TenFits, TapeFits};

use rules_law::{Tally, Tape};
use terms::Closing;

// The half hour before the close, in ms.
const HALF_HOUR: u64 = 1_800_000;

// Whether a trade at a time is in the half hour that the close price is taken from.
pub fn in_half_hour(length: u64, time: u64) -> bool
    requires { length_least ≤ length }
    ensures { result ≡ in_half_hour length time }
{
    length - HALF_HOUR <= time
}

// Price times lots.
fn worth(price: u64, lots: u64) -> u64
    requires { (price ≤ price_most) × (lots ≤ lots_most) }
    ensures { (result ≡ price * lots) × (result ≤ price_most * lots) }
{
    price * lots
}

// A tally with one more trade.
fn tally_after(t: Tally, price: u64, lots: u64) -> Tally
    requires { TallyFits t × (price ≤ price_most) × (lots ≤ lots_most) }
    ensures { result ≡ tallied t price lots }
{
    Tally {
        count: t.count + 1,
        lots: t.lots + lots,
        value: t.value + worth(price, lots),
    }
}

// Ten remembered numbers, of which n are in use, with one more.
fn pushed(mut ten: [u64; 10], n: u64, x: u64) -> [u64; 10]
    ensures { result ≡ remembered ten n x }
{
    if n < 10 {
        ten[n as usize] = x;
        return ten;
    }
    // No copy_within: what was stored number by number is then loaded in other widths, and a sweep over many orders waits for each.
    let [_, b, c, d, e, f, g, h, i, j] = ten;
    [b, c, d, e, f, g, h, i, j, x]
}

// The half hour's tally after a trade; late says whether it is in the half hour.
fn half_after(half: Tally, late: bool, price: u64, lots: u64) -> Tally
    requires { TallyFits half × (price ≤ price_most) × (lots ≤ lots_most) }
    ensures { result ≡ half_after half late price lots }
{
    if late {
        return tally_after(half, price, lots);
    }
    half
}

// The tape after a trade; late says whether the trade is in the half hour.
pub fn tape_after(t: Tape, late: bool, price: u64, lots: u64) -> Tape
    requires { (t.trades ≤ trades_most) × TallyFits t.half × (price ≤ price_most) × (lots ≤ lots_most) }
    ensures { result ≡ tape_after t late price lots }
{
    Tape {
        trades: t.trades + 1,
        prices: pushed(t.prices, t.trades, price),
        sizes: pushed(t.sizes, t.trades, lots),
        half: half_after(t.half, late, price, lots),
    }
}

// The newest of the numbers that are remembered of so many trades, or `other` before any trade.
fn last_of(other: u64, trades: u64, ten: [u64; 10]) -> u64
    ensures { result ≡ last_of other trades ten }
{
    if trades == 0 {
        return other;
    }
    if 10 <= trades {
        return ten[9];
    }
    ten[(trades - 1) as usize]
}

// The last trade's price, or `other` before any trade.
pub fn last_or(other: u64, t: Tape) -> u64
    ensures { result ≡ last_or other t }
{
    last_of(other, t.trades, t.prices)
}

// The last trade's lots, 0 before any trade.
pub fn last_lots(t: Tape) -> u64
    ensures { result ≡ last_lots t }
{
    last_of(0, t.trades, t.sizes)
}

// The last ten trades added up.
fn last_ten(prices: [u64; 10], sizes: [u64; 10]) -> Tally
    requires { TenFits prices sizes }
    ensures { (result ≡ tally_all no_tally prices sizes) × TallyFits result × (1 ≤ result.lots) }
{
    let mut t = Tally {
        count: 0,
        lots: 0,
        value: 0,
    };
    for (price, lots) in prices.iter().zip(&sizes) {
        t = tally_after(t, *price, *lots);
    }
    t
}

// One tick for each lot: the unit in which an average is rounded.
fn spread(lots: u64, tick: u64) -> u64
    requires { (1 ≤ lots) × (lots ≤ lots_most * trades_most) × (tick ≤ tick_most) }
    ensures { (result ≡ lots * tick) × (tick ≤ result) × (result ≤ lots_most * trades_most * tick_most) }
{
    lots * tick
}

// Value÷lots, to the nearest tick, halves up.
fn nearest_tick(tick: u64, t: Tally) -> u64
    requires { (1 ≤ tick) × (tick ≤ tick_most) × TallyFits t × (1 ≤ t.lots) }
    ensures { result ≡ average tick t }
{
    let unit = spread(t.lots, tick);
    let value = t.value;
    (2 * value + unit) / (2 * unit) * tick
}

// The close price and the next base, from the tape, the previous close and today's settlement.
pub fn closing(tick: u64, close: u64, t: Tape, settle: u64) -> Closing
    requires { (1 ≤ tick) × (tick ≤ tick_most) × TapeFits t }
    ensures { result ≡ closing_of tick close t settle }
{
    if 10 <= t.half.count {
        let price = nearest_tick(tick, t.half);
        return Closing { price, base: price };
    }
    if 10 <= t.trades {
        let price = nearest_tick(tick, last_ten(t.prices, t.sizes));
        return Closing { price, base: price };
    }
    Closing {
        price: last_or(close, t),
        base: settle,
    }
}
