// The reference price at the opening and at the boundaries of minutes, and the range around it.
ghost use Rattle.std.specs.Prelude.{◌≡◌, ◌≤◌};
ghost use Rattle.terms.specs.Sizes.{price_most, days_most};
ghost use Rattle.rules_law.specs.Reference.{theoretical_or, minute_after, quiet, reckoned, MinuteFits, RangeFits, reference_most, range_of, in_range, reach_of, range_ends};

use rules_law::{Minute, Range, Reckoning, Row};
use terms::Band;

// The greatest reference: no theoretical price is above it.
pub const MOST: u64 = 110_600_000;

// The theoretical price, or `other` where no underlying is known.
pub fn theoretical_or(other: u64, under: u64, days: u64) -> u64
    requires { (under ≤ price_most) × (days ≤ days_most) }
    ensures { result ≡ theoretical_or other under days }
{
    if under == 0 {
        return other;
    }
    crate::growth::theoretical(under, days)
}

// The minute after one more trade.
pub fn minute_after(m: Minute, price: u64) -> Minute
    requires { MinuteFits m × (price ≤ price_most) }
    ensures { result ≡ minute_after m price }
{
    Minute {
        count: m.count + 1,
        sum: m.sum + price,
    }
}

// A reference at the start of a minute, before its first trade.
pub fn begun(price: u64) -> Reckoning
    ensures { result ≡ quiet price }
{
    Reckoning {
        reference: price,
        minute: Minute { count: 0, sum: 0 },
    }
}

// The reference and the minute after every boundary from one time, not included, to another, included.
pub fn reckon(r: Reckoning, under: u64, days: u64, from: u64, to: u64) -> Reckoning
    requires { (under ≤ price_most) × (days ≤ days_most) × (from ≤ to) }
    ensures { result ≡ reckoned r under days from to }
{
    let crossed = to / 60_000 - from / 60_000;
    if crossed == 0 {
        return r;
    }
    let count = r.minute.count;
    if count == 0 {
        return begun(theoretical_or(r.reference, under, days));
    }
    let average = r.minute.sum / count;
    if crossed == 1 {
        return begun(average);
    }
    begun(theoretical_or(average, under, days))
}

// The range around a reference. It goes by the initial percent, whatever percent the band has now.
pub fn range_of(slab: Row, reference: u64) -> Range
    ensures { result ≡ range_of slab reference }
{
    Range {
        percent: slab.initial,
        reference,
    }
}

// How far from the reference a price may lie, in whole paise.
fn reach(r: Range) -> u64
    requires { RangeFits r }
    ensures { (result ≡ reach_of r) × (result ≤ r.reference) × (r.reference ≤ reference_most) }
{
    r.percent * r.reference / 200
}

// Whether a price lies in the execution range. Any price may be asked about.
pub fn in_range(r: Range, x: u64) -> bool
    requires { RangeFits r }
    ensures { result ≡ in_range r x }
{
    x.abs_diff(r.reference) <= reach(r)
}

// Both ends of the execution range, in whole paise.
pub fn range_ends(r: Range) -> Band
    requires { RangeFits r }
    ensures { result ≡ range_ends r }
{
    let reach = reach(r);
    Band {
        low: r.reference - reach,
        high: r.reference + reach,
    }
}
