// What becomes of the lots that an order has left.
ghost use Rattle.std.specs.Prelude.{◌≡◌, ◌<◌};
ghost use Rattle.terms.specs.Sizes.{slots};
ghost use Rattle.tables.specs.Tables.{decode, Holds};
ghost use Rattle.book_law.specs.Matching.{fate_of_left};
ghost use Rattle.acts_law.specs.code.Written.{fate_from, RestedAs, Settling, Settled};

use acts_law::Placed;
use acts_reports::telling;
use book_law::Fate;
use rules::slabs;
use terms::{Band, Kind, Life, Order, Said, Side, Why};

// A market order that lives all day turns into a limit at its last price if that is in the band; else it is cancelled.
fn turned(band: Band, last: u64) -> Fate
    ensures { result ≡ fate_of_left Life.AllDay Kind.Market band last }
{
    if slabs::in_band(band, last) {
        return Fate::Turns(last);
    }
    Fate::Ends(Why::OutsideBand)
}

// What becomes of a remainder that did not stop out of range: its life and its kind decide.
fn by_life(life: Life, kind: Kind, band: Band, last: u64) -> Fate
    ensures { result ≡ fate_of_left life kind band last }
{
    match life {
        Life::Ioc => Fate::Ends(Why::Immediate),
        Life::AllDay => match kind {
            Kind::Limit(price) => Fate::Rests(price),
            Kind::Market => turned(band, last),
        },
    }
}

// The fate of an order with so many lots left, which did or did not stop out of range.
pub fn fate(life: Life, kind: Kind, band: Band, last: u64, left: u64, out: bool) -> Fate
    ensures { result ≡ fate_from life kind band last left out }
{
    if left == 0 {
        return Fate::Done;
    }
    if out {
        return Fate::Ends(Why::OutOfRange);
    }
    by_life(life, kind, band, last)
}

fn order_of(number: u64, price: u64, lots: u64) -> Order
    ensures { result ≡ record { number = number; price = price; lots = lots } }
{
    Order {
        number,
        price,
        lots,
    }
}

// Puts the remainder in its place on its own side.
fn rest(mine: &mut [u64], n: usize, side: Side, o: Order) -> usize
    requires { Holds n mine.old × (n < slots) }
    ensures { RestedAs side o n mine.old mine.new result }
{
    let count = n + 1;
    book::side::add(mine, n, side, o);
    count
}

// Settles the remainder: it takes its place, or is reported as cancelled, or there is none.
pub fn settle(
    mine: &mut [u64],
    n: usize,
    side: Side,
    number: u64,
    left: u64,
    fate: Fate,
    time: u64,
    room: &mut [u64],
    at: usize,
) -> Placed
    requires { Settling n mine.old room.old at fate }
    ensures { Settled side time number left fate (decode n mine.old) mine.old room.old at mine.new room.new result }
{
    match fate {
        Fate::Done => Placed { count: n, at },
        Fate::Rests(price) => {
            let o = order_of(number, price, left);
            let count = rest(mine, n, side, o);
            Placed { count, at }
        }
        Fate::Turns(price) => {
            let o = order_of(number, price, left);
            let count = rest(mine, n, side, o);
            let next = telling::tell(room, at, time, Said::Convert(o));
            Placed { count, at: next }
        }
        Fate::Ends(why) => {
            let next = telling::tell_cancel(room, at, time, number, left, why);
            Placed { count: n, at: next }
        }
    }
}
