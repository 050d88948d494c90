// A trade in the session: what it changes in the cooling-off, the minute and the tape.
ghost use Rattle.std.specs.Prelude.{◌≡◌, ◌≤◌};
ghost use Rattle.terms.specs.Sizes.{price_most, lots_most};
ghost use Rattle.state_law.specs.Now.{band_now};
ghost use Rattle.state_law.specs.Trades.{with_trade, TradesFit};

use rules::{close, reference, slabs};
use rules_law::Reckoning;
use state_law::Session;
use terms::Band;

// The session after a trade of some lots at a price; `band` is the band in force.
pub fn with_trade(s: Session, band: Band, price: u64, lots: u64) -> Session
    requires { TradesFit s 1 × (band ≡ band_now s) × (price ≤ price_most) × (lots ≤ lots_most) }
    ensures { result ≡ with_trade s price lots }
{
    let minute = s.reckoning.minute;
    let tape = s.tape;
    let late = close::in_half_hour(s.settings.length, s.clock.time);
    let after = close::tape_after(tape, late, price, lots);
    let running = reference::minute_after(minute, price);
    let cooling = slabs::cooling_after(s.clock.widened, s.clock.cooling, s.clock.time, band, price);
    let reckoning = Reckoning {
        reference: s.reckoning.reference,
        minute: running,
    };
    let mut r = s;
    r.clock.cooling = cooling;
    r.reckoning = reckoning;
    r.tape = after;
    r
}
