// The reader of events has a function for each choice, and the grammar has a part of the same name.
ghost use Rattle.std.specs.Prelude.{◌≡◌};
ghost use Rattle.lines_text_law.specs.Reading.{answered};
ghost use Rattle.lines_text_law.specs.code.Pieces.{at as lookAt};
ghost use Rattle.lines_reading_law.specs.Grammars.{order, price_rest, life_rest, lives, kind_rest, kinds, side_rest, act_of, single_rest, clock_rest, cancel_rest, acts};
ghost use Rattle.lines_reading_law.specs.Answers.{read_event};

use lines_reading_law::Single;
use lines_text::pieces;
use lines_text_law::{LineError, Parsed};
use terms::{Act, Entry, Event, Kind, Life, Side};

// The event of an order, from the parts of its line.
fn order(t: u64, side: Side, kind: Kind, life: Life, lots: u64) -> Event
    ensures { result ≡ order t side kind life lots }
{
    let act = Act::Enter(Entry {
        side,
        kind,
        life,
        lots,
    });
    Event { time: t, act }
}

// Reads from behind the lots on: a limit's price, and the end.
#[tactic(auto, using(lines_text_law::proofs::Steps::reading), unfolding(lines_reading_law::specs::Grammars::price_rest))]
fn price_rest(
    s: &[u8],
    at: usize,
    t: u64,
    side: Side,
    limit: bool,
    life: Life,
    lots: u64,
) -> Result<Parsed<Event>, LineError>
    ensures { answered result ≡ lookAt s.now (price_rest t side limit life lots) at }
{
    if limit {
        let price = pieces::last(s, at, b" price=")?;
        return Ok(Parsed {
            value: order(t, side, Kind::Limit(price.value), life, lots),
            next: price.next,
        });
    }
    let next = pieces::word(s, at, b"\n")?;
    Ok(Parsed {
        value: order(t, side, Kind::Market, life, lots),
        next,
    })
}

#[tactic(auto, using(lines_text_law::proofs::Steps::reading), unfolding(lines_reading_law::specs::Grammars::life_rest))]
fn life_rest(
    s: &[u8],
    at: usize,
    w: &[u8],
    t: u64,
    side: Side,
    limit: bool,
    life: Life,
) -> Result<Parsed<Event>, LineError>
    ensures { answered result ≡ lookAt s.now (life_rest w.now t side limit life) at }
{
    let lots = pieces::field(s, at, w)?;
    price_rest(s, lots.next, t, side, limit, life, lots.value)
}

// Reads from the word after "life=" on.
#[tactic(auto, using(lines_text_law::proofs::Steps::reading), unfolding(lines_reading_law::specs::Grammars::lives))]
fn lives(s: &[u8], at: usize, t: u64, side: Side, limit: bool) -> Result<Parsed<Event>, LineError>
    ensures { answered result ≡ lookAt s.now (lives t side limit) at }
{
    match pieces::byte(s, at)? {
        b'd' => life_rest(s, at + 1, b"ay qty=", t, side, limit, Life::AllDay),
        b'i' => life_rest(s, at + 1, b"oc qty=", t, side, limit, Life::Ioc),
        _ => Err(LineError::Wrong(at)),
    }
}

#[tactic(auto, using(lines_text_law::proofs::Steps::reading), unfolding(lines_reading_law::specs::Grammars::kind_rest))]
fn kind_rest(
    s: &[u8],
    at: usize,
    w: &[u8],
    t: u64,
    side: Side,
    limit: bool,
) -> Result<Parsed<Event>, LineError>
    ensures { answered result ≡ lookAt s.now (kind_rest w.now t side limit) at }
{
    let next = pieces::word(s, at, w)?;
    lives(s, next, t, side, limit)
}

// Reads from the word after "kind=" on.
#[tactic(auto, using(lines_text_law::proofs::Steps::reading), unfolding(lines_reading_law::specs::Grammars::kinds))]
fn kinds(s: &[u8], at: usize, t: u64, side: Side) -> Result<Parsed<Event>, LineError>
    ensures { answered result ≡ lookAt s.now (kinds t side) at }
{
    match pieces::byte(s, at)? {
        b'l' => kind_rest(s, at + 1, b"imit life=", t, side, true),
        b'm' => kind_rest(s, at + 1, b"arket life=", t, side, false),
        _ => Err(LineError::Wrong(at)),
    }
}

#[tactic(auto, using(lines_text_law::proofs::Steps::reading), unfolding(lines_reading_law::specs::Grammars::side_rest))]
fn side_rest(s: &[u8], at: usize, w: &[u8], t: u64, side: Side) -> Result<Parsed<Event>, LineError>
    ensures { answered result ≡ lookAt s.now (side_rest w.now t side) at }
{
    let next = pieces::word(s, at, w)?;
    kinds(s, next, t, side)
}

fn act_of(single: Single, number: u64) -> Act
    ensures { result ≡ act_of single number }
{
    match single {
        Single::Withdraw => Act::Withdraw(number),
        Single::Under => Act::Under(number),
        Single::Finish => Act::Finish(number),
    }
}

// Reads an act with one number, from behind the first byte of its word on.
#[tactic(auto, using(lines_text_law::proofs::Steps::reading), unfolding(lines_reading_law::specs::Grammars::single_rest))]
fn single_rest(
    s: &[u8],
    at: usize,
    w: &[u8],
    t: u64,
    single: Single,
) -> Result<Parsed<Event>, LineError>
    ensures { answered result ≡ lookAt s.now (single_rest w.now t single) at }
{
    let number = pieces::last(s, at, w)?;
    let act = act_of(single, number.value);
    Ok(Parsed {
        value: Event { time: t, act },
        next: number.next,
    })
}

// Reads from behind "clo" on: close or clock.
#[tactic(auto, using(lines_text_law::proofs::Steps::reading), unfolding(lines_reading_law::specs::Grammars::clock_rest))]
fn clock_rest(s: &[u8], at: usize, t: u64) -> Result<Parsed<Event>, LineError>
    ensures { answered result ≡ lookAt s.now (clock_rest t) at }
{
    if pieces::byte(s, at)? == b's' {
        return single_rest(s, at + 1, b"e settle=", t, Single::Finish);
    }
    let next = pieces::word(s, at, b"ck\n")?;
    Ok(Parsed {
        value: Event {
            time: t,
            act: Act::Clock,
        },
        next,
    })
}

// Reads from behind "c" on: cancel, close or clock.
#[tactic(auto, using(lines_text_law::proofs::Steps::reading), unfolding(lines_reading_law::specs::Grammars::cancel_rest))]
fn cancel_rest(s: &[u8], at: usize, t: u64) -> Result<Parsed<Event>, LineError>
    ensures { answered result ≡ lookAt s.now (cancel_rest t) at }
{
    if pieces::byte(s, at)? == b'a' {
        return single_rest(s, at + 1, b"ncel id=", t, Single::Withdraw);
    }
    let next = pieces::word(s, at, b"lo")?;
    clock_rest(s, next, t)
}

// Reads from the word after "do=" on.
#[tactic(auto, using(lines_text_law::proofs::Steps::reading), unfolding(lines_reading_law::specs::Grammars::acts))]
fn acts(s: &[u8], at: usize, t: u64) -> Result<Parsed<Event>, LineError>
    ensures { answered result ≡ lookAt s.now (acts t) at }
{
    match pieces::byte(s, at)? {
        b'b' => side_rest(s, at + 1, b"uy kind=", t, Side::Buy),
        b's' => side_rest(s, at + 1, b"ell kind=", t, Side::Sell),
        b'u' => single_rest(s, at + 1, b"nder price=", t, Single::Under),
        b'c' => cancel_rest(s, at + 1, t),
        _ => Err(LineError::Wrong(at)),
    }
}

// Reads the event whose line the bytes start with, by the grammar.
#[tactic(auto, using(lines_text_law::proofs::Steps::reading), unfolding(lines_reading_law::specs::Answers::read_event, lines_reading_law::specs::Grammars::event_grammar))]
pub fn read(s: &[u8]) -> Result<Parsed<Event>, LineError>
    ensures { answered result ≡ read_event s.now }
{
    let time = pieces::field(s, 0, b"t=")?;
    let next = pieces::word(s, time.next, b" do=")?;
    acts(s, next, time.value)
}
