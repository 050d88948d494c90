// Whether an incoming order trades at a counter price: by its limit, the range and the mark.
ghost use Rattle.std.specs.Prelude.{◌≡◌, ◌≤◌};
ghost use Rattle.rules_law.specs.Reference.{RangeFits};
ghost use Rattle.rules_law.specs.Mark.{mark_most};
ghost use Rattle.book_law.specs.Matching.{fits_limit, fits, beyond, first_after};
ghost use Rattle.matching_law.specs.code.Sweeps.{taker_of, at_price_of};

use matching_law::{AtPrice, Incoming};
use rules::{mark, reference};
use terms::{Kind, Side};

fn is_within(side: Side, limit: u64, price: u64) -> bool
    ensures { result ≡ fits_limit side limit price }
{
    match side {
        Side::Buy => price <= limit,
        Side::Sell => limit <= price,
    }
}

// Whether the counter price fits the limit; a market order has none.
fn is_fitting(side: Side, kind: Kind, price: u64) -> bool
    ensures { result ≡ fits side kind price }
{
    match kind {
        Kind::Limit(limit) => is_within(side, limit, price),
        Kind::Market => true,
    }
}

// Whether a market order has traded, first at `first`, and the counter price lies beyond its mark; `first` is 0 before it trades.
fn is_beyond(side: Side, kind: Kind, first: u64, price: u64) -> bool
    requires { first ≤ mark_most }
    ensures { result ≡ beyond side kind first price }
{
    match kind {
        Kind::Limit(_) => false,
        Kind::Market => (first != 0) & mark::beyond_mark(side, first, price),
    }
}

// The price of the order's first trade, once it has traded at this price; 0 stands for none, as in `first_after` and `beyond` of book_law.
pub fn first_after(first: u64, price: u64) -> u64
    ensures { result ≡ first_after first price }
{
    if first == 0 {
        return price;
    }
    first
}

// What the incoming order does at this price, when its first trade was at `first`, 0 for none.
pub fn meet(x: Incoming, first: u64, price: u64) -> AtPrice
    requires { RangeFits x.range × (first ≤ mark_most) }
    ensures { result ≡ at_price_of (taker_of x) first price }
{
    let side = x.side;
    let kind = x.kind;
    let range = x.range;
    let fitting = is_fitting(side, kind, price);
    let ranged = reference::in_range(range, price);
    let beyond = is_beyond(side, kind, first, price);
    AtPrice {
        trades: fitting & ranged & !beyond,
        out: fitting & !ranged,
    }
}
