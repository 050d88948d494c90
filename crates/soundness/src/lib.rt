// soundness: whether a session that is handed in is sound, together with the orders that its tables hold.
// It may use book_sound, state and soundness_law, and what these use. It promises: the answer IS document 01's paragraph, for any numbers
// whatever and for any tables that are long enough; nothing is written.

#![tactic(auto)]

pub mod numbers;

ghost use Rattle.std.specs.Prelude.{◌≡◌, ◌≤◌, length};
ghost use Rattle.terms.specs.Sizes.{sizes};
ghost use Rattle.tables.specs.Lengths.{table_length};
ghost use Rattle.terms.specs.code.Ticks.{factor_of};
ghost use Rattle.state_law.specs.Now.{Clocked};
ghost use Rattle.soundness_law.specs.Sound.{clock_sound, tape_sound, session_sound, sound, day_in};

use state::force;
use state_law::Session;
use tables::side::Orders;
use terms::{judge, ticks};

// Whether the settings are valid, and the time, the counts, the slab and the other single numbers within their bounds.
fn clock_sound(s: Session, factor: u64) -> bool
    requires { factor ≡ factor_of s.settings.tick }
    ensures { result ≡ clock_sound sizes s }
{
    let g = s.settings;
    if !judge::is_valid(g, factor) {
        return false;
    }
    if !numbers::time_sound(s) {
        return false;
    }
    if !numbers::counts_sound(s) {
        return false;
    }
    if !numbers::slab_sound(s) {
        return false;
    }
    numbers::numbers_sound(s)
}

// Whether what is remembered of trades is sound.
fn tape_sound(s: Session, factor: u64) -> bool
    requires { Clocked s × (factor ≡ factor_of s.settings.tick) }
    ensures { result ≡ tape_sound s }
{
    let tick = s.settings.tick;
    let trades = s.tape.trades;
    let tape = s.tape;
    let half = tape.half;
    let reckoning = s.reckoning;
    let minute = reckoning.minute;
    if !numbers::half_sound(tick, trades, half) {
        return false;
    }
    if !numbers::minute_sound(trades, minute) {
        return false;
    }
    numbers::remembered_sound(tick, factor, tape)
}

// Whether the numbers of a session are sound, without its live orders.
fn session_sound(s: Session, factor: u64) -> bool
    requires { factor ≡ factor_of s.settings.tick }
    ensures { result ≡ session_sound sizes s }
{
    if !clock_sound(s, factor) {
        return false;
    }
    tape_sound(s, factor)
}

// Whether a session is sound with its orders. One division serves every test of a tick.
pub fn is_sound(s: Session, buys: &[u64], sells: &[u64]) -> bool
    requires { (table_length ≤ length buys.now) × (table_length ≤ length sells.now) }
    ensures { result ≡ sound (day_in s buys.now sells.now) }
{
    let tick = s.settings.tick;
    let factor = ticks::factor(tick);
    if !session_sound(s, factor) {
        return false;
    }
    let nbuys = s.live.buys as usize;
    let nsells = s.live.sells as usize;
    let band = force::band_now(s);
    book_sound::book_sound(
        Orders {
            table: buys,
            count: nbuys,
        },
        Orders {
            table: sells,
            count: nsells,
        },
        s.live.given,
        tick,
        factor,
        band,
    )
}
