// One side's orders in their table: an order put in by priority, found by its number, removed.
ghost use Rattle.std.specs.Prelude.{◌≡◌, ◌<◌, Bool, eqb};
ghost use Rattle.terms.specs.Sizes.{slots};
ghost use Rattle.terms.specs.declared.Order.{Order};
ghost use Rattle.tables.specs.Tables.{decode, table_of, Holds};
ghost use Rattle.tables.specs.Live.{orders_in};
ghost use Rattle.book_law.specs.Priority.{better, ahead, insert, rests, removed, left_of};
ghost use Rattle.book_law.specs.code.Places.{first_where};

use tables::orders;
use tables::side::Orders;
use terms::{Order, Side};

// Whether price p is better than price q on a side.
pub fn is_better(side: Side, p: u64, q: u64) -> bool
    ensures { result ≡ better side p q }
{
    match side {
        Side::Buy => q < p,
        Side::Sell => p < q,
    }
}

// Whether order a goes before order b. `Order` has no `Ord`, since which price is better depends on the side.
pub fn is_ahead(side: Side, a: Order, b: Order) -> bool
    ensures { result ≡ ahead side a b }
{
    let level = a.price == b.price;
    let earlier = a.number < b.number;
    is_better(side, a.price, b.price) | (level & earlier)
}

// The slot of the first order that passes a test, their count where none does.
fn first_where<F: Fn(Order) -> bool>(orders: Orders, test: F) -> usize
    requires { F.IsAlwaysCallable test }
    ensures { (p : Order → Bool) → ((x : Order) (r : Bool) → F.post test x r → r ≡ p x) → result ≡ first_where p (orders_in orders.entry) }
{
    for i in 0..orders.count {
        if test(orders.at(i)) {
            return i;
        }
    }
    orders.count
}

// The slot that a new order takes.
pub fn place(orders: Orders, side: Side, o: Order) -> usize
    ensures { result ≡ first_where (λ x. ahead side o x) (orders_in orders.entry) }
{
    first_where(orders, |x| is_ahead(side, o, x))
}

// The slot of the order of that number, the count of the orders where none rests.
pub fn find(orders: Orders, number: u64) -> usize
    ensures { result ≡ first_where (λ x. eqb x.number number) (orders_in orders.entry) }
{
    first_where(orders, |x| x.number == number)
}

// Whether the order of that number rests.
pub fn is_resting(orders: Orders, number: u64) -> bool
    ensures { result ≡ rests number (orders_in orders.entry) }
{
    find(orders, number) < orders.count
}

// Puts a new order into its place.
pub fn add(t: &mut [u64], n: usize, side: Side, o: Order)
    requires { Holds n t.old × (n < slots) }
    ensures { t.new ≡ table_of (insert side o (decode n t.old)) t.old }
{
    let i = place(Orders { table: t, count: n }, side, o);
    orders::put_in(t, n, i, o);
}

// Removes the order of that number, if it rests, and returns the lots that it had left.
pub fn remove(t: &mut [u64], n: usize, number: u64) -> u64
    requires { Holds n t.old }
    ensures { (result ≡ left_of number (decode n t.old)) × (t.new ≡ table_of (removed number (decode n t.old)) t.old) }
{
    let i = find(Orders { table: t, count: n }, number);
    if n <= i {
        return 0;
    }
    let o = orders::order_at(t, i);
    orders::cut(t, n, i, 1);
    o.lots
}
