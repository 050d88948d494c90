// Slabs: the percents of each category, the band at a percent, and the cooling-off.
ghost use Rattle.std.specs.Prelude.{◌≡◌, ◌+◌, ◌≤◌};
ghost use Rattle.terms.specs.Sizes.{time_most};
ghost use Rattle.rules_law.specs.Slabs.{slab_of, percent_of, percent_most, Priced, low_at, high_at, band_at, band_most, in_band, cooling_after, over_by};

use rules_law::Row;
use terms::{Band, Category};

const SLABS: [Row; 8] = [
    Row {
        initial: 4,
        enhanced: 2,
    },
    Row {
        initial: 4,
        enhanced: 2,
    },
    Row {
        initial: 3,
        enhanced: 1,
    },
    Row {
        initial: 6,
        enhanced: 3,
    },
    Row {
        initial: 6,
        enhanced: 3,
    },
    Row {
        initial: 6,
        enhanced: 3,
    },
    Row {
        initial: 3,
        enhanced: 3,
    },
    Row {
        initial: 6,
        enhanced: 3,
    },
];

// How long a cooling-off lasts.
pub const COOLING: u64 = 900_000;

// The percents of a category. Each index is written out, so that no call builds the table anew.
pub fn slab_of(c: Category) -> Row
    ensures { (result ≡ slab_of c) × (result.initial + result.enhanced ≤ percent_most) }
{
    let rows = SLABS;
    match c {
        Category::Broad => rows[0],
        Category::Narrow => rows[1],
        Category::Sensitive => rows[2],
        Category::Energy => rows[3],
        Category::Metals => rows[4],
        Category::Precious => rows[5],
        Category::Gems => rows[6],
        Category::Other => rows[7],
    }
}

// The percent in force once the band has been widened so often.
pub fn percent_of(slab: Row, widened: u64) -> u64
    requires { slab.initial + slab.enhanced ≤ percent_most }
    ensures { (result ≡ percent_of slab widened) × (result ≤ percent_most) }
{
    if widened == 0 {
        return slab.initial;
    }
    slab.initial + slab.enhanced
}

fn low_at(base: u64, tick: u64, percent: u64) -> u64
    requires { Priced base tick percent }
    ensures { result ≡ low_at base tick percent }
{
    let part = base * (100 - percent);
    let unit = 100 * tick;
    (part + (unit - 1)) / unit * tick
}

fn high_at(base: u64, tick: u64, percent: u64) -> u64
    requires { Priced base tick percent }
    ensures { result ≡ high_at base tick percent }
{
    let part = base * (100 + percent);
    let unit = 100 * tick;
    part / unit * tick
}

// The band at a percent.
pub fn band_at(base: u64, tick: u64, percent: u64) -> Band
    requires { Priced base tick percent }
    ensures { (result ≡ band_at base tick percent) × (result.high ≤ band_most) }
{
    let low = low_at(base, tick, percent);
    let high = high_at(base, tick, percent);
    Band { low, high }
}

pub fn in_band(b: Band, x: u64) -> bool
    ensures { result ≡ in_band b x }
{
    (b.low <= x) & (x <= b.high)
}

// The time at which a cooling-off ends after a trade at a price; 0 where none runs.
pub fn cooling_after(widened: u64, cooling: u64, time: u64, b: Band, price: u64) -> u64
    requires { time ≤ time_most }
    ensures { result ≡ cooling_after widened cooling time b price }
{
    let end = time + COOLING;
    if widened != 0 {
        return cooling;
    }
    if cooling != 0 {
        return cooling;
    }
    if (price == b.low) | (price == b.high) {
        return end;
    }
    cooling
}

// Whether a cooling-off runs and has ended by a time.
pub fn over_by(cooling: u64, t: u64) -> bool
    ensures { result ≡ over_by cooling t }
{
    (cooling != 0) & (cooling <= t)
}
