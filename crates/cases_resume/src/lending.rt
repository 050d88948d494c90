// What is lent to the calls: slices longer than they must be, full of a number that no call writes.
ghost use Rattle.std.specs.Prelude.{true, ◌≡◌};
ghost use Rattle.cases_resume.specs.Left.{Scrubbed};

use crate::alike;
use resume_law::Resumed;
use tables::lengths;

// A number greater than any that a table or a report can hold, so that each number that is written over it is seen.
pub const MARK: u64 = 7_777_777_777;

pub const LONG: usize = lengths::TABLE + 12;

pub const ROOMY: usize = lengths::ROOM + 12;

// What `resume_lent` answered, and whether its scratch is zero up to its length and as lent past it.
#[derive(Clone, Copy)]
pub struct Lent {
    pub resumed: Resumed,
    pub scrubbed: bool,
}

// Whether the first n numbers are zero, and the others as lent.
fn is_scrubbed(t: &[u64], n: usize) -> bool
    ensures { result ≡ true → Scrubbed n t.now }
{
    if t.len() < n {
        return false;
    }
    alike::all_are(&t[0..n], 0) & alike::all_are(&t[n..], MARK)
}

// Comes back on lent scratch, and looks at it afterwards.
pub fn resume_lent(saved: &[u8], buys: &mut [u64], sells: &mut [u64]) -> Lent {
    let mut bought = [MARK; LONG];
    let mut sold = [MARK; LONG];
    let mut room = [MARK; ROOMY];
    let r = resume::resume_lent(saved, buys, sells, &mut bought, &mut sold, &mut room);
    let first = is_scrubbed(&bought, lengths::TABLE);
    let second = is_scrubbed(&sold, lengths::TABLE);
    let third = is_scrubbed(&room, lengths::ROOM);
    Lent {
        resumed: r,
        scrubbed: first & second & third,
    }
}
