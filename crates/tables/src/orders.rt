// Orders in a side's table: read, stored, taken out, put in and changed; and the part behind the live orders cleared.
ghost use Rattle.std.specs.Prelude.{◌≡◌, ◌∷◌, ◌++◌, ◌+◌, ◌*◌, ◌≤◌, ◌<◌, length, take, drop};
ghost use Rattle.terms.specs.Sizes.{slots};
ghost use Rattle.tables.specs.Lengths.{width, table_length};
ghost use Rattle.tables.specs.Put.{put};
ghost use Rattle.tables.specs.Tables.{numbers_of, order_at, decode, table_of, Holds};

use crate::{flat, lengths};
use terms::Order;

// The order in slot i.
pub fn order_at(t: &[u64], i: usize) -> Order
    requires { (i < slots) × (width * i + width ≤ length t.now) }
    ensures { result ≡ order_at t.now i }
{
    let at = lengths::WIDTH * i;
    Order {
        number: t[at],
        price: t[at + 1],
        lots: t[at + 2],
    }
}

// Writes an order's numbers from `at` on.
pub fn store(t: &mut [u64], at: usize, o: Order)
    requires { at + width ≤ length t.old }
    ensures { t.new ≡ put t.old at (numbers_of o) }
{
    flat::store3(t, at, o.number, o.price, o.lots);
}

// Takes out k orders from slot i on.
pub fn cut(t: &mut [u64], n: usize, i: usize, k: usize)
    requires { Holds n t.old × (i + k ≤ n) }
    ensures { t.new ≡ table_of (take i (decode n t.old) ++ drop (i + k) (decode n t.old)) t.old }
{
    if k == 0 {
        return;
    }
    let behind = i + k;
    let moved = lengths::WIDTH * (n - behind);
    flat::shift(t, lengths::WIDTH * i, lengths::WIDTH * behind, moved);
    flat::clear(t, lengths::WIDTH * (n - k), lengths::WIDTH * k);
}

// Takes out the first k orders.
pub fn remove_first(t: &mut [u64], n: usize, k: usize)
    requires { Holds n t.old × (k ≤ n) }
    ensures { t.new ≡ table_of (drop k (decode n t.old)) t.old }
{
    cut(t, n, 0, k);
}

// Puts an order in at slot i.
pub fn put_in(t: &mut [u64], n: usize, i: usize, o: Order)
    requires { Holds n t.old × (i ≤ n) × (n < slots) }
    ensures { t.new ≡ table_of (take i (decode n t.old) ++ (o ∷ drop i (decode n t.old))) t.old }
{
    let at = lengths::WIDTH * i;
    flat::shift(t, at + lengths::WIDTH, at, lengths::WIDTH * (n - i));
    store(t, at, o);
}

// Replaces the order in slot i by o.
pub fn change(t: &mut [u64], n: usize, i: usize, o: Order)
    requires { Holds n t.old × (i < n) }
    ensures { t.new ≡ table_of (take i (decode n t.old) ++ (o ∷ drop (i + 1) (decode n t.old))) t.old }
{
    store(t, lengths::WIDTH * i, o);
}

// Writes zeros over all that lies behind the n live orders, up to the end of the table.
pub fn clear_tail(t: &mut [u64], n: usize)
    requires { (n ≤ slots) × (table_length ≤ length t.old) }
    ensures { t.new ≡ table_of (decode n t.old) t.old }
{
    let live = lengths::WIDTH * n;
    flat::clear(t, live, lengths::TABLE - live);
}
