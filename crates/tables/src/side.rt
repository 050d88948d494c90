// The orders of a side that live, in a table that is only read.
ghost use Rattle.std.specs.Prelude.{◌≡◌, ◌<◌};
ghost use Rattle.tables.specs.Tables.{order_at, TableFor};

use crate::orders;
use terms::Order;

// The first so many orders of a table, whatever lies behind them.
#[derive(Clone, Copy)]
pub struct Orders<'a> {
    pub table: &'a [u64],
    pub count: usize,
    ghost held: { TableFor count table.now },
}

impl<'a> Orders<'a> {
    // The order in slot i.
    pub fn at(self, i: usize) -> Order
        requires { i < self.count }
        ensures { result ≡ order_at self.entry.table.now i }
    {
        orders::order_at(self.table, i)
    }
}
