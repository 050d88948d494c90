// A cancel: a resting order is removed from its side.
ghost use Rattle.std.specs.Prelude.{◌+◌, ◌≤◌, length};
ghost use Rattle.tables.specs.Lengths.{record_length};
ghost use Rattle.tables.specs.Tables.{decode, Holds};
ghost use Rattle.acts_law.specs.code.Written.{RestsIn, WithdrawnAs};

use acts_law::Withdrawn;
use acts_reports::telling;
use tables::side::Orders;
use terms::Why;

// Removes the order of that number from the buys, or else from the sells; it rests on one of the two.
pub fn withdraw(
    number: u64,
    time: u64,
    buys: &mut [u64],
    nbuys: usize,
    sells: &mut [u64],
    nsells: usize,
    room: &mut [u64],
    at: usize,
) -> Withdrawn
    requires { Holds nbuys buys.old × Holds nsells sells.old × (at + record_length ≤ length room.old) × RestsIn number (decode nbuys buys.old) (decode nsells sells.old) }
    ensures { WithdrawnAs number time (decode nbuys buys.old) (decode nsells sells.old) buys.old sells.old room.old at buys.new sells.new room.new result }
{
    if book::side::is_resting(
        Orders {
            table: buys,
            count: nbuys,
        },
        number,
    ) {
        let lots = book::side::remove(buys, nbuys, number);
        let next = telling::tell_cancel(room, at, time, number, lots, Why::Asked);
        let left = nbuys - 1;
        return Withdrawn {
            buys: left,
            sells: nsells,
            at: next,
        };
    }
    let lots = book::side::remove(sells, nsells, number);
    let next = telling::tell_cancel(room, at, time, number, lots, Why::Asked);
    let left = nsells - 1;
    Withdrawn {
        buys: nbuys,
        sells: left,
        at: next,
    }
}
