// The opening of a session.
ghost use Rattle.std.specs.Prelude.{◌≡◌};
ghost use Rattle.terms.specs.Settings.{Valid};
ghost use Rattle.rules_law.specs.Close.{blank_tape};
ghost use Rattle.state_law.specs.Opening.{at_open, opened_session, fixed_session, opening_of};

use rules::reference;
use rules_law::{Reckoning, Tally, Tape};
use state_law::{Dial, Live, Opened, Session};
use terms::{Category, Settings, judge};

// A tape before any trade.
fn blank() -> Tape
    ensures { result ≡ blank_tape }
{
    let prices = [0u64; 10];
    let sizes = [0u64; 10];
    let half = Tally {
        count: 0,
        lots: 0,
        value: 0,
    };
    Tape {
        trades: 0,
        prices,
        sizes,
        half,
    }
}

// A session at time 0 with no order, no trade and the initial band.
fn at_open(g: Settings, reckoning: Reckoning) -> Session
    ensures { result ≡ at_open g reckoning }
{
    let clock = Dial {
        time: 0,
        closed: false,
        widened: 0,
        cooling: 0,
        under: g.under,
    };
    let live = Live {
        buys: 0,
        sells: 0,
        given: 0,
    };
    let tape = blank();
    Session {
        settings: g,
        clock,
        live,
        reckoning,
        tape,
    }
}

// The session that valid settings open.
fn opened(g: Settings) -> Session
    requires { Valid g }
    ensures { result ≡ opened_session g }
{
    let price = reference::theoretical_or(g.base, g.under, g.days);
    let reckoning = reference::begun(price);
    at_open(g, reckoning)
}

// The one session that a refused opening answers with: broad, open, every number zero. It is not sound.
pub fn fixed() -> Session
    ensures { result ≡ fixed_session }
{
    let settings = Settings {
        category: Category::Broad,
        base: 0,
        close: 0,
        settle: 0,
        tick: 0,
        length: 0,
        days: 0,
        under: 0,
    };
    let reckoning = reference::begun(0);
    at_open(settings, reckoning)
}

// Opens a session, or refuses the settings by 12 or 13. It touches no table.
pub fn begin(g: Settings) -> Opened
    ensures { result ≡ opening_of g }
{
    match judge::check(g) {
        Ok(()) => Opened {
            verdict: Ok(()),
            session: opened(g),
        },
        Err(r) => Opened {
            verdict: Err(r),
            session: fixed(),
        },
    }
}
