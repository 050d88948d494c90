// The tests of a session's numbers, part by part as the paragraph on soundness lists them.
ghost use Rattle.std.specs.Prelude.{◌≡◌, true, ◌*◌, ◌≤◌};
ghost use Rattle.terms.specs.Sizes.{price_most, lots_most, trades_most, time_most, tick_most, sizes};
ghost use Rattle.terms.specs.Truth.{◌⊓◌, between};
ghost use Rattle.terms.specs.Numbers.{is_price, is_lots, on_tick};
ghost use Rattle.terms.specs.code.Ticks.{Dividing};
ghost use Rattle.rules_law.specs.Close.{kept};
ghost use Rattle.soundness_law.specs.Sound.{time_sound, counts_sound, slab_sound, numbers_sound, every, price_sound, remembered_sound, half_sound, minute_sound};

use rules_law::{Minute, Tally, Tape};
use state_law::Session;
use terms::sizes;

pub fn time_sound(s: Session) -> bool
    ensures { result ≡ time_sound s }
{
    let small = s.clock.time <= sizes::TIME;
    let below = s.clock.time < s.settings.length;
    small & (s.clock.closed | below)
}

pub fn counts_sound(s: Session) -> bool
    ensures { result ≡ counts_sound sizes s }
{
    let most = sizes::SLOTS as u64;
    (s.live.buys <= most) & (s.live.sells <= most)
}

pub fn slab_sound(s: Session) -> bool
    requires { s.clock.time ≤ time_most }
    ensures { result ≡ slab_sound s }
{
    let end = s.clock.time + rules::slabs::COOLING;
    let once = s.clock.widened <= 1;
    let initial = (s.clock.widened == 0) | (s.clock.cooling == 0);
    let near = s.clock.cooling <= end;
    once & initial & near
}

pub fn numbers_sound(s: Session) -> bool
    ensures { result ≡ numbers_sound sizes s }
{
    let reference = (1 <= s.reckoning.reference)
        & (s.reckoning.reference <= rules::reference::MOST);
    let under = s.clock.under <= sizes::PRICE;
    let given = s.live.given <= sizes::NUMBERS;
    let trades = s.tape.trades <= sizes::TRADES + (sizes::SLOTS as u64);
    reference & under & given & trades
}

fn price_sound(tick: u64, factor: u64, x: u64) -> bool
    requires { Dividing tick factor }
    ensures { result ≡ price_sound tick x }
{
    if !terms::numbers::is_price(x) {
        return false;
    }
    terms::ticks::on_tick(x, tick, factor)
}

fn prices_sound(prices: &[u64], tick: u64, factor: u64) -> bool
    requires { Dividing tick factor }
    ensures { result ≡ every (price_sound tick) prices.now }
{
    prices.iter().all(|x| price_sound(tick, factor, *x))
}

fn sizes_sound(lots: &[u64]) -> bool
    ensures { result ≡ every is_lots lots.now }
{
    lots.iter().all(|x| terms::numbers::is_lots(*x))
}

// How many trades are remembered: ten, or all if there are fewer.
fn remembered(trades: u64) -> usize
    ensures { (result ≡ kept trades) × (result ≤ 10) }
{
    if 10 <= trades {
        return 10;
    }
    trades as usize
}

// Whether ten numbers are from 1 to `most`. The loop is never left early, so that all ten can be compared at once.
fn ten_within(xs: [u64; 10], most: u64) -> bool
    ensures { result ≡ every (λ x. between 1 x most) xs }
{
    let mut all = true;
    for x in &xs {
        all = all & ((1 <= *x) & (*x <= most));
    }
    all
}

// Whether ten prices are multiples of the tick; this loop is never left early either.
fn ten_ticked(prices: [u64; 10], tick: u64, factor: u64) -> bool
    requires { (every is_price prices ≡ true) × Dividing tick factor }
    ensures { result ≡ every (on_tick tick) prices }
{
    let mut all = true;
    for x in &prices {
        all = all & terms::ticks::on_tick(*x, tick, factor);
    }
    all
}

// Whether ten remembered trades are sound.
fn full_sound(prices: [u64; 10], lots: [u64; 10], tick: u64, factor: u64) -> bool
    requires { Dividing tick factor }
    ensures { result ≡ (every (price_sound tick) prices ⊓ every is_lots lots) }
{
    if !ten_within(prices, sizes::PRICE) {
        return false;
    }
    if !ten_ticked(prices, tick, factor) {
        return false;
    }
    ten_within(lots, sizes::LOTS)
}

pub fn remembered_sound(tick: u64, factor: u64, t: Tape) -> bool
    requires { Dividing tick factor }
    ensures { result ≡ remembered_sound tick t }
{
    let prices = t.prices;
    let lots = t.sizes;
    let n = remembered(t.trades);
    if n == 10 {
        return full_sound(prices, lots, tick, factor);
    }
    if !prices_sound(&prices[..n], tick, factor) {
        return false;
    }
    sizes_sound(&lots[..n])
}

// The product of some lots and a number, both of them bounded.
fn times(lots: u64, x: u64) -> u64
    requires { (lots ≤ lots_most * trades_most) × (x ≤ price_most) }
    ensures { result ≡ lots * x }
{
    lots * x
}

pub fn half_sound(tick: u64, trades: u64, h: Tally) -> bool
    requires { (tick ≤ tick_most) × (trades ≤ trades_most) }
    ensures { result ≡ half_sound tick price_most trades h }
{
    let count = h.count;
    let lots = h.lots;
    let value = h.value;
    if !(count <= trades) {
        return false;
    }
    let most = sizes::LOTS * count;
    if !((count <= lots) & (lots <= most)) {
        return false;
    }
    let least = times(lots, tick);
    let greatest = times(lots, sizes::PRICE);
    (least <= value) & (value <= greatest)
}

pub fn minute_sound(trades: u64, m: Minute) -> bool
    requires { trades ≤ trades_most }
    ensures { result ≡ minute_sound trades m }
{
    let count = m.count;
    let sum = m.sum;
    if !(count <= trades) {
        return false;
    }
    let most = sizes::PRICE * count;
    (count <= sum) & (sum <= most)
}
