// The clock steps that an event makes before it acts: first the slab, then the reference. The time is the event's.
ghost use Rattle.std.specs.Prelude.{◌≡◌, ◌≤◌};
ghost use Rattle.rules_law.specs.Slabs.{band_most};
ghost use Rattle.state_law.specs.Now.{Clocked, band_now};
ghost use Rattle.state_law.specs.Clock.{widened_by, cooling_by, clock_step};

use rules::{reference, slabs};
use state_law::Session;
use terms::Band;

fn widened_by(widened: u64, cooling: u64, t: u64) -> u64
    requires { widened ≤ 1 }
    ensures { result ≡ widened_by widened cooling t }
{
    let more = widened + 1;
    if slabs::over_by(cooling, t) {
        return more;
    }
    widened
}

fn cooling_by(cooling: u64, t: u64) -> u64
    ensures { result ≡ cooling_by cooling t }
{
    if slabs::over_by(cooling, t) {
        return 0;
    }
    cooling
}

// The session at the time of an event; that time must not be before the session's.
pub fn step(s: Session, t: u64) -> Session
    requires { Clocked s × (s.clock.time ≤ t) }
    ensures { result ≡ clock_step s t }
{
    let old = s.reckoning;
    let cooling = s.clock.cooling;
    let widened = widened_by(s.clock.widened, cooling, t);
    let ends = cooling_by(cooling, t);
    let reckoning = reference::reckon(old, s.clock.under, s.settings.days, s.clock.time, t);
    let mut r = s;
    r.clock.time = t;
    r.clock.widened = widened;
    r.clock.cooling = ends;
    r.reckoning = reckoning;
    r
}

// The band after the clock steps up to a time.
pub fn band_at(s: Session, t: u64) -> Band
    requires { Clocked s }
    ensures { (result ≡ band_now (clock_step s t)) × (result.high ≤ band_most) }
{
    let g = s.settings;
    let category = g.category;
    let slab = slabs::slab_of(category);
    let widened = widened_by(s.clock.widened, s.clock.cooling, t);
    let percent = slabs::percent_of(slab, widened);
    slabs::band_at(g.base, g.tick, percent)
}
