// Reports in the room, as records of kind, time and four fields.
ghost use Rattle.std.specs.Prelude.{◌≡◌, ◌+◌, ◌≤◌, length};
ghost use Rattle.tables.specs.Lengths.{record_length};
ghost use Rattle.tables.specs.Records.{fields_of, record_of};
ghost use Rattle.tables.specs.Put.{put};

use crate::flat;
use terms::{Report, Said, numbers};

// The fields of a report, in the order of its printed line; zero where there is none.
pub fn fields(s: Said) -> [u64; 4]
    ensures { result ≡ fields_of s }
{
    match s {
        Said::Accept(number) => [number, 0, 0, 0],
        Said::Trade(d) => [d.buy, d.sell, d.lots, d.price],
        Said::Convert(o) => [o.number, o.lots, o.price, 0],
        Said::Cancel(e) => [e.number, e.lots, u64::from(e.why), 0],
        Said::Slab(b) => [b.low, b.high, 0, 0],
        Said::Ref(price) => [price, 0, 0, 0],
        Said::Close(c) => [c.price, c.base, 0, 0],
    }
}

// The record of a report.
pub fn record(r: Report) -> [u64; 6]
    ensures { result ≡ record_of r }
{
    let [first, second, third, fourth] = fields(r.said);
    [
        numbers::of_said(r.said),
        r.time,
        first,
        second,
        third,
        fourth,
    ]
}

// Writes a report's record from `at` on.
pub fn put_record(room: &mut [u64], at: usize, r: Report)
    requires { at + record_length ≤ length room.old }
    ensures { room.new ≡ put room.old at (record_of r) }
{
    // No copy_from_slice: the record would go through the stack, which makes a close with full books half as long again.
    let [kind, time, first, second, third, fourth] = record(r);
    flat::store3(room, at, kind, time, first);
    flat::store3(room, at + 3, second, third, fourth);
}
