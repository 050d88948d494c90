// Where a session stands: what an app shows beside the view.
ghost use Rattle.std.specs.Prelude.{◌≡◌, Err};
ghost use Rattle.state_law.specs.Now.{Clocked};
ghost use Rattle.engine_law.specs.Standings.{standing_now, no_standing, standing_call};

use engine_law::{Standing, Stood};
use rules::close;
use state::force;
use state_law::Session;
use tables::lengths;
use terms::{Band, Refusal};

// The percent, the band and the range in force, the cooling-off, the last trade and the counts.
fn standing_now(s: Session) -> Standing
    requires { Clocked s }
    ensures { result ≡ standing_now s }
{
    let tape = s.tape;
    let ends = s.clock.cooling;
    let percent = force::percent_now(s);
    let band = force::band_now(s);
    let range = force::ends_now(s);
    let price = close::last_or(0, tape);
    let lots = close::last_lots(tape);
    Standing {
        percent,
        band,
        range,
        reference: s.reckoning.reference,
        cooling: ends != 0,
        ends,
        price,
        lots,
        buys: s.live.buys,
        sells: s.live.sells,
        given: s.live.given,
        trades: tape.trades,
    }
}

// The standing that a refusal answers with: every number zero.
fn none() -> Standing
    ensures { result ≡ no_standing }
{
    let band = Band { low: 0, high: 0 };
    Standing {
        percent: 0,
        band,
        range: band,
        reference: 0,
        cooling: false,
        ends: 0,
        price: 0,
        lots: 0,
        buys: 0,
        sells: 0,
        given: 0,
        trades: 0,
    }
}

// The answer of a refusal, with every number of the standing zero.
fn refused(r: Refusal) -> Stood
    ensures { result ≡ record { verdict = Err r; standing = no_standing } }
{
    let standing = none();
    Stood {
        verdict: Err(r),
        standing,
    }
}

// Answers where a session stands: refusal 1 for a short table, 2 for a session that is not sound.
pub fn standing(s: Session, buys: &[u64], sells: &[u64]) -> Stood
    ensures { result ≡ standing_call s buys.now sells.now }
{
    if buys.len() < lengths::TABLE {
        return refused(Refusal::SmallRoom);
    }
    if sells.len() < lengths::TABLE {
        return refused(Refusal::SmallRoom);
    }
    if !soundness::is_sound(s, buys, sells) {
        return refused(Refusal::Unsound);
    }
    let standing = standing_now(s);
    Stood {
        verdict: Ok(()),
        standing,
    }
}
