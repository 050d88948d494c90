// An event written as six numbers, and read from them.
ghost use Rattle.std.specs.Prelude.{◌≡◌, ◌≤◌, get_or, length};
ghost use Rattle.terms.specs.Carried.{limit_of};
ghost use Rattle.desk_packing_law.specs.Runs.{event_length};
ghost use Rattle.desk_packing_law.specs.Events.{side_number, kind_number, life_number, or_zero, event_numbers, kind_by, life_by, entry_by, event_if, found_in, event_from, six_in};

use terms::{Act, Entry, Event, Kind, Life, Side};

// The numbers of an order's words are no `From`, since they belong to the numbers of an event: neither the words nor `u64` are of this crate.
fn of_side(side: Side) -> u64
    ensures { result ≡ side_number side }
{
    match side {
        Side::Buy => 1,
        Side::Sell => 2,
    }
}

fn of_kind(kind: Kind) -> u64
    ensures { result ≡ kind_number kind }
{
    match kind {
        Kind::Limit(_) => 1,
        Kind::Market => 2,
    }
}

fn of_life(life: Life) -> u64
    ensures { result ≡ life_number life }
{
    match life {
        Life::AllDay => 1,
        Life::Ioc => 2,
    }
}

// A limit order's price; 0 for a market order.
fn limit_of(kind: Kind) -> u64
    ensures { result ≡ or_zero (limit_of kind) }
{
    match kind {
        Kind::Limit(price) => price,
        Kind::Market => 0,
    }
}

// The numbers of an event.
pub fn pack(e: Event) -> [u64; 6]
    ensures { result ≡ event_numbers e }
{
    let time = e.time;
    match e.act {
        Act::Enter(n) => [
            time,
            of_side(n.side),
            of_kind(n.kind),
            of_life(n.life),
            n.lots,
            limit_of(n.kind),
        ],
        Act::Withdraw(number) => [time, 3, 0, 0, number, 0],
        Act::Under(price) => [time, 4, 0, 0, 0, price],
        Act::Clock => [time, 5, 0, 0, 0, 0],
        Act::Finish(settle) => [time, 6, 0, 0, 0, settle],
    }
}

fn kind_by(kind: u64, price: u64) -> Kind
    ensures { result ≡ kind_by kind price }
{
    match kind {
        1 => Kind::Limit(price),
        _ => Kind::Market,
    }
}

fn life_by(life: u64) -> Life
    ensures { result ≡ life_by life }
{
    match life {
        1 => Life::AllDay,
        _ => Life::Ioc,
    }
}

// The order of a side that some numbers make.
fn entry_by(side: Side, kind: u64, life: u64, lots: u64, price: u64) -> Entry
    ensures { result ≡ entry_by side kind life lots price }
{
    Entry {
        side,
        kind: kind_by(kind, price),
        life: life_by(life),
        lots,
    }
}

// The event of this act, if the six numbers are its own.
#[tactic(auto, using(desk_packing_law::proofs::Packs::told_if))]
fn told_if(act: Act, numbers: [u64; 6]) -> Option<Event>
    ensures { result ≡ event_if (record { time = get_or numbers 0 0; act = act }) (six_in numbers) }
{
    let [time, what, kind, life, amount, price] = numbers;
    let event = Event { time, act };
    (pack(event) == [time, what, kind, life, amount, price]).then_some(event)
}

// The event that six numbers stand for, a row for each number of what it does; a number that is none of these is taken for a clock event's.
// Each row compares by itself, where it is known what the event does: behind the rows, the comparison would ask for it again.
#[tactic(auto, unfolding(desk_packing_law::specs::Events::found_in, desk_packing_law::specs::Events::found_from, desk_packing_law::specs::Events::act_by))]
fn found_in(numbers: [u64; 6]) -> Option<Event>
    ensures { result ≡ found_in numbers }
{
    let [_, what, kind, life, amount, price] = numbers;
    match what {
        1 => told_if(
            Act::Enter(entry_by(Side::Buy, kind, life, amount, price)),
            numbers,
        ),
        2 => told_if(
            Act::Enter(entry_by(Side::Sell, kind, life, amount, price)),
            numbers,
        ),
        3 => told_if(Act::Withdraw(amount), numbers),
        4 => told_if(Act::Under(price), numbers),
        6 => told_if(Act::Finish(price), numbers),
        _ => told_if(Act::Clock, numbers),
    }
}

// The event that some numbers stand for, if they are an event's.
#[tactic(auto, unfolding(desk_packing_law::specs::Events::found_in))]
pub fn find(ns: &[u64]) -> Option<Event>
    requires { event_length ≤ length ns.now }
    ensures { result ≡ found_in ns.now }
{
    found_in([ns[0], ns[1], ns[2], ns[3], ns[4], ns[5]])
}

// The event that some numbers stand for; where they are no event's, a clock event at the greatest time, which is refused.
#[tactic(auto, unfolding(desk_packing_law::specs::Events::event_from))]
pub fn unpack(ns: &[u64]) -> Event
    requires { event_length ≤ length ns.now }
    ensures { result ≡ event_from ns.now }
{
    find(ns).unwrap_or(Event {
        time: u64::MAX,
        act: Act::Clock,
    })
}
