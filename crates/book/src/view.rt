// The view of a side: the live part of the named table, as a part of that slice.
ghost use Rattle.std.specs.Prelude.{◌≡◌, ◌≤◌, length};
ghost use Rattle.tables.specs.Lengths.{table_length};
ghost use Rattle.book_law.specs.View.{live_part, view_of};

use tables::lengths;
use terms::{Side, sizes};

// The numbers of the first n orders, or none where a table cannot hold so many.
fn live<'a>(t: &'a [u64], n: usize) -> &'a [u64]
    requires { table_length ≤ length t.now }
    ensures { result.now ≡ live_part n t.now }
{
    if sizes::SLOTS < n {
        return &t[0..0];
    }
    let end = lengths::WIDTH * n;
    &t[0..end]
}

// The live part of the named table, for any tables and counts; it is empty where a table is short or the count too large.
pub fn view<'a>(
    side: Side,
    buys: &'a [u64],
    sells: &'a [u64],
    buying: usize,
    selling: usize,
) -> &'a [u64]
    ensures { result.now ≡ view_of side buys.now sells.now buying selling }
{
    if buys.len() < lengths::TABLE {
        return &buys[0..0];
    }
    if sells.len() < lengths::TABLE {
        return &sells[0..0];
    }
    match side {
        Side::Buy => live(buys, buying),
        Side::Sell => live(sells, selling),
    }
}
