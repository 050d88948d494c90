// What is in force in a session: the percent, the band, the range.
ghost use Rattle.std.specs.Prelude.{◌≡◌, ◌+◌, ◌≤◌};
ghost use Rattle.rules_law.specs.Slabs.{slab_of, percent_most, band_most};
ghost use Rattle.rules_law.specs.Reference.{range_ends};
ghost use Rattle.state_law.specs.Now.{Clocked, percent_now, band_now, range_now};

use rules::{reference, slabs};
use rules_law::{Range, Row};
use state_law::Session;
use terms::Band;

// The two percents of the session's category.
fn slab_in(s: Session) -> Row
    ensures { (result ≡ slab_of s.settings.category) × (result.initial + result.enhanced ≤ percent_most) }
{
    let g = s.settings;
    let category = g.category;
    slabs::slab_of(category)
}

// The band in force.
pub fn band_now(s: Session) -> Band
    requires { Clocked s }
    ensures { (result ≡ band_now s) × (result.high ≤ band_most) }
{
    let slab = slab_in(s);
    let percent = slabs::percent_of(slab, s.clock.widened);
    slabs::band_at(s.settings.base, s.settings.tick, percent)
}

// The percent in force.
pub fn percent_now(s: Session) -> u64
    ensures { result ≡ percent_now s }
{
    let slab = slab_in(s);
    slabs::percent_of(slab, s.clock.widened)
}

// The range in which trades must be.
pub fn range_now(s: Session) -> Range
    ensures { result ≡ range_now s }
{
    let slab = slab_in(s);
    reference::range_of(slab, s.reckoning.reference)
}

// Both ends of that range.
pub fn ends_now(s: Session) -> Band
    requires { Clocked s }
    ensures { result ≡ range_ends (range_now s) }
{
    let range = range_now(s);
    reference::range_ends(range)
}
