// book_sound: whether the book that a caller hands in is sound. It is judged on every call.
// It may use terms, tables and book_sound_law. It promises: the answer IS document 01's condition on the orders that the tables hold, whatever
// their numbers are and whatever lies behind them, found by one pass over each table.

#![tactic(auto)]

pub mod marks;
pub mod pass;

ghost use Rattle.std.specs.Prelude.{◌≡◌, ◌≤◌, ◌<◌};
ghost use Rattle.terms.specs.Sizes.{numbers_most};
ghost use Rattle.tables.specs.Live.{orders_in};
ghost use Rattle.book_sound_law.specs.Sound.{uncrossed, book_sound};
ghost use Rattle.terms.specs.code.Ticks.{scale, factor_of, Dividing};
ghost use Rattle.book_sound_law.specs.code.Pass.{limits_of};

use book_sound_law::Limits;
use tables::side::Orders;
use terms::Band;

fn held_to(given: u64, tick: u64, factor: u64, band: Band) -> Limits
    requires { factor ≡ factor_of tick }
    ensures { result ≡ limits_of given tick band }
{
    Limits {
        given,
        tick,
        factor,
        low: band.low,
        high: band.high,
    }
}

// Whether the best buy is below the best sell, where there are both.
fn best_apart(buys: Orders, sells: Orders) -> bool
    ensures { result ≡ uncrossed (orders_in buys.entry) (orders_in sells.entry) }
{
    if buys.count == 0 {
        return true;
    }
    if sells.count == 0 {
        return true;
    }
    buys.at(0).price < sells.at(0).price
}

// Whether the book is sound.
pub fn book_sound(
    buys: Orders,
    sells: Orders,
    given: u64,
    tick: u64,
    factor: u64,
    band: Band,
) -> bool
    requires { (given ≤ numbers_most) × Dividing tick factor × (band.high < scale) }
    ensures { result ≡ book_sound given tick band (orders_in buys.entry) (orders_in sells.entry) }
{
    if !best_apart(buys, sells) {
        return false;
    }
    pass::sides(buys, sells, held_to(given, tick, factor, band))
}
