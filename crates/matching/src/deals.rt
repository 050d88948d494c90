// A fill, and its trade report in the room.
ghost use Rattle.std.specs.Prelude.{◌≡◌, ◌+◌, ◌≤◌, length};
ghost use Rattle.tables.specs.Lengths.{record_length};
ghost use Rattle.tables.specs.Records.{record_of};
ghost use Rattle.tables.specs.Put.{put};
ghost use Rattle.book_law.specs.Matching.{part, deal_of};
ghost use Rattle.matching_law.specs.code.Sweeps.{fill_report};

use matching_law::Incoming;
use terms::{Deal, Order, Report, Said, Side};

// A part of an order, of so many lots.
pub fn part_of(o: Order, lots: u64) -> Order
    ensures { result ≡ part o lots }
{
    Order {
        number: o.number,
        price: o.price,
        lots,
    }
}

fn deal_of(side: Side, number: u64, f: Order) -> Deal
    ensures { result ≡ deal_of side number f }
{
    match side {
        Side::Buy => Deal {
            buy: number,
            sell: f.number,
            lots: f.lots,
            price: f.price,
        },
        Side::Sell => Deal {
            buy: f.number,
            sell: number,
            lots: f.lots,
            price: f.price,
        },
    }
}

// Writes the trade report of a fill from `at` on.
pub fn report(room: &mut [u64], at: usize, x: Incoming, f: Order)
    requires { at + record_length ≤ length room.old }
    ensures { room.new ≡ put room.old at (record_of (fill_report x f)) }
{
    let side = x.side;
    let deal = deal_of(side, x.number, f);
    let said = Said::Trade(deal);
    tables::room::put_record(room, at, Report { time: x.time, said });
}
