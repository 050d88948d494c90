// One pass over each table: every order is sound, each goes ahead of the next, and no number comes twice.
ghost use Rattle.std.specs.Prelude.{◌≡◌, cond, ◌+◌, ◌≤◌, length, replicate};
ghost use Rattle.tables.specs.Live.{orders_in};
ghost use Rattle.book_sound_law.specs.code.Marks.{words_to, marked};
ghost use Rattle.book_sound_law.specs.code.Pass.{LimitsFit, Keyed, fine, key_of, low_bits, pass_of, sides_by, least_mask, sides_sound};

use crate::marks;
use book_sound_law::Limits;
use tables::side::Orders;
use terms::{Order, Side, sizes, ticks};

// Every order number is below it.
const KEY_STEP: u64 = 65_536;

// Whether an order is sound. The bounds come first, in one test, so that the tick is tested only for a small price.
fn order_fine(l: Limits, o: Order) -> bool
    requires { LimitsFit l }
    ensures { result ≡ fine l o }
{
    let lots = (1 <= o.lots) & (o.lots <= sizes::LOTS);
    let number = (1 <= o.number) & (o.number <= l.given);
    let price = (l.low <= o.price) & (o.price <= l.high);
    if !(lots & number & price) {
        return false;
    }
    ticks::on_tick(o.price, l.tick, l.factor)
}

// The priority of an order as one number: the lower it is, the better.
fn key(side: Side, l: Limits, o: Order) -> u64
    requires { LimitsFit l × Keyed l o }
    ensures { result ≡ key_of side l o }
{
    match side {
        Side::Buy => (l.high - o.price) * KEY_STEP + o.number,
        Side::Sell => (o.price - l.low) * KEY_STEP + o.number,
    }
}

// The pass over a side: each order is fine, its key is above the last one, and its number's mark, which is then set, was free.
fn side_by(orders: Orders, side: Side, l: Limits, mask: u64, map: &mut [u64]) -> bool
    requires { LimitsFit l × (words_to mask ≤ length map.old) }
    ensures { (result ≡ pass_of side l mask 0 map.old (orders_in orders.entry))
        × (map.new ≡ cond result (marked map.old (low_bits mask (orders_in orders.entry))) map.new) }
{
    let mut last = 0;
    for i in 0..orders.count {
        let o = orders.at(i);
        if !order_fine(l, o) {
            return false;
        }
        let next = key(side, l, o);
        if next <= last {
            return false;
        }
        if marks::mark(map, o.number & mask) {
            return false;
        }
        last = next;
    }
    true
}

// The passes over both sides, with one map that begins empty.
fn sides_by(buys: Orders, sells: Orders, l: Limits, mask: u64, map: &mut [u64]) -> bool
    requires { LimitsFit l × (words_to mask ≤ length map.old) × (map.old ≡ replicate (length map.old) 0) }
    ensures { result ≡ sides_by mask l (orders_in buys.entry) (orders_in sells.entry) }
{
    if !side_by(buys, Side::Buy, l, mask, map) {
        return false;
    }
    side_by(sells, Side::Sell, l, mask, map)
}

// The passes with a map of so many words on the stack, for the low bits of a number that the mask keeps.
fn sides_with<const WORDS: usize>(buys: Orders, sells: Orders, l: Limits, mask: u64) -> bool
    requires { LimitsFit l × (words_to mask ≤ WORDS) × (WORDS ≤ 1024) }
    ensures { result ≡ sides_by mask l (orders_in buys.entry) (orders_in sells.entry) }
{
    let mut map = [0u64; WORDS];
    sides_by(buys, sells, l, mask, &mut map)
}

// The passes with 16 bits of a number, which tell any two order numbers apart.
fn sides_large(buys: Orders, sells: Orders, l: Limits) -> bool
    requires { LimitsFit l }
    ensures { result ≡ sides_by 65535 l (orders_in buys.entry) (orders_in sells.entry) }
{
    sides_with::<1024>(buys, sells, l, 65_535)
}

// The passes with the smallest map that serves, since it is cleared soonest: the numbers are low, or so few that equal marks are rare.
fn sides_least(buys: Orders, sells: Orders, l: Limits) -> bool
    requires { LimitsFit l }
    ensures { result ≡ sides_by (least_mask l.given (buys.entry.count + sells.entry.count)) l (orders_in buys.entry) (orders_in sells.entry) }
{
    let live = buys.count + sells.count;
    if (l.given <= 1023) | (live <= 16) {
        return sides_with::<16>(buys, sells, l, 1023);
    }
    if (l.given <= 4095) | (live <= 48) {
        return sides_with::<64>(buys, sells, l, 4095);
    }
    if l.given <= 16383 {
        return sides_with::<256>(buys, sells, l, 16_383);
    }
    sides_large(buys, sells, l)
}

// Different marks belong to different numbers, but so may equal ones: where a small map finds two equal marks, the largest map decides.
pub fn sides(buys: Orders, sells: Orders, l: Limits) -> bool
    requires { LimitsFit l }
    ensures { result ≡ sides_sound l (orders_in buys.entry) (orders_in sells.entry) }
{
    if sides_least(buys, sells, l) {
        return true;
    }
    sides_large(buys, sells, l)
}
