// What an act carries, part by part: the rows of the table of refusals are tests of these parts, whatever the act.
ghost use Rattle.std.specs.Prelude.{◌≡◌};
ghost use Rattle.terms.specs.Carried.{limit_of, carries};

use crate::{Act, Entry, Kind};

// The parts that an act can have; specs/Carried.antt says which has which.
#[derive(Clone, Copy, Debug, PartialEq, Eq)]
pub struct Parts {
    // An order that comes in.
    pub entry: Option<Entry>,
    // The number of the order to cancel.
    pub number: Option<u64>,
    pub lots: Option<u64>,
    // Any price: a limit, a settlement or an underlying.
    pub price: Option<u64>,
    // A price that must be a multiple of the tick: a limit or a settlement.
    pub ticked: Option<u64>,
    pub limit: Option<u64>,
    // Whether it ends the day.
    pub closes: bool,
}

// An act that carries nothing.
const BARE: Parts = Parts {
    entry: None,
    number: None,
    lots: None,
    price: None,
    ticked: None,
    limit: None,
    closes: false,
};

// The limit price of an order; a market order has none.
fn limit_of(kind: Kind) -> Option<u64>
    ensures { result ≡ limit_of kind }
{
    match kind {
        Kind::Limit(price) => Some(price),
        Kind::Market => None,
    }
}

// The parts of an act.
pub fn carried(act: Act) -> Parts
    ensures { result ≡ carries act }
{
    match act {
        Act::Enter(n) => {
            let limit = limit_of(n.kind);
            Parts {
                entry: Some(n),
                lots: Some(n.lots),
                price: limit,
                ticked: limit,
                limit,
                ..BARE
            }
        }
        Act::Withdraw(number) => Parts {
            number: Some(number),
            ..BARE
        },
        Act::Under(price) => Parts {
            price: Some(price),
            ..BARE
        },
        Act::Clock => BARE,
        Act::Finish(settle) => Parts {
            price: Some(settle),
            ticked: Some(settle),
            closes: true,
            ..BARE
        },
    }
}
