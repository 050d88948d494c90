// Judges what saved bytes come back as.
ghost use Rattle.std.specs.Prelude.{true, ◌≡◌};
ghost use Rattle.cases_resume.specs.Left.{Left};

use crate::{alike, lending, text};
use engine::looking;
use resume_law::{Comeback, Resumed};
use state_law::Session;
use tables::lengths;
use terms::Side;

// Where the first line ends, with its newline.
fn first_line(saved: &[u8]) -> usize {
    for (i, b) in saved.iter().enumerate() {
        if *b == b'\n' {
            return i + 1;
        }
    }
    saved.len()
}

// Whether an event is among the bytes that count: then, and only then, the tables are written.
fn has_event(answer: Comeback, saved: &[u8]) -> bool {
    match answer {
        Ok(count) => first_line(saved) < count,
        Err(_) => false,
    }
}

// Whether a table is as it must be, with so many live numbers: as lent where no event was replayed, else zero behind the live numbers; and
// past its length always as lent.
fn is_left(t: &[u64], live: usize, moved: bool) -> bool
    ensures { result ≡ true → Left live moved t.now }
{
    if t.len() < lengths::TABLE {
        return false;
    }
    if !moved {
        return alike::all_are(t, lending::MARK);
    }
    if lengths::TABLE < live {
        return false;
    }
    alike::all_are(&t[live..lengths::TABLE], 0)
        & alike::all_are(&t[lengths::TABLE..], lending::MARK)
}

// Whether both tables are.
pub fn are_left<'a>(
    answer: Comeback,
    session: Session,
    saved: &[u8],
    buys: &'a [u64],
    sells: &'a [u64],
) -> bool {
    let moved = has_event(answer, saved);
    let bids = looking::view(Side::Buy, session, buys, sells);
    let offers = looking::view(Side::Sell, session, buys, sells);
    let nbids = bids.len();
    let noffers = offers.len();
    is_left(buys, nbids, moved) & is_left(sells, noffers, moved)
}

// Whether an answer prints just the expected text.
fn is_told<'a>(
    answer: Comeback,
    session: Session,
    expected: &[u8],
    buys: &'a [u64],
    sells: &'a [u64],
) -> bool {
    let mut room = [0u8; text::ROOM];
    let n = text::put_all(&mut room, answer, session, buys, sells);
    check::same(&room[0..n], expected)
}

// Whether what a call answered and left is right.
fn is_back<'a>(
    r: Resumed,
    saved: &[u8],
    expected: &[u8],
    buys: &'a [u64],
    sells: &'a [u64],
) -> bool {
    let answer = r.answer;
    let session = r.session;
    let told = is_told(answer, session, expected, buys, sells);
    let left = are_left(answer, session, saved, buys, sells);
    told & left
}

// Comes back by `resume_lent`: whether that is right too, and leaves the tables that `resume` left.
fn is_right_lent(saved: &[u8], expected: &[u8], buys: &[u64], sells: &[u64]) -> bool {
    let mut bids = [lending::MARK; lending::LONG];
    let mut offers = [lending::MARK; lending::LONG];
    let lent = lending::resume_lent(saved, &mut bids, &mut offers);
    let scrubbed = lent.scrubbed;
    let r = lent.resumed;
    let back = is_back(r, saved, expected, &bids, &offers);
    let bought = alike::alike(buys, &bids);
    let sold = alike::alike(sells, &offers);
    scrubbed & back & bought & sold
}

// Whether saved bytes come back as expected, by both calls.
pub fn is_right(saved: &[u8], expected: &[u8]) -> bool {
    let mut buys = [lending::MARK; lending::LONG];
    let mut sells = [lending::MARK; lending::LONG];
    let r = resume::resume(saved, &mut buys, &mut sells);
    let back = is_back(r, saved, expected, &buys, &sells);
    let again = is_right_lent(saved, expected, &buys, &sells);
    back & again
}
