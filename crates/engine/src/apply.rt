// An event is applied to a session and lent numbers.
ghost use Rattle.std.specs.Prelude.{◌≡◌, Err};
ghost use Rattle.engine_law.specs.Calls.{AppliedAs, roomy, LongEnough};

use acts::accepted;
use engine_law::Applied;
use state_law::Session;
use tables::lengths;
use terms::{Event, Refusal};

// Whether both tables and the room are long enough.
pub fn is_roomy(buys: &[u64], sells: &[u64], room: &[u64]) -> bool
    ensures { result ≡ roomy buys.now sells.now room.now }
{
    let bought = lengths::TABLE <= buys.len();
    let sold = lengths::TABLE <= sells.len();
    let told = lengths::ROOM <= room.len();
    bought & sold & told
}

// The answer of a refusal: the session that was given, with nothing written.
fn refused(r: Refusal, s: Session) -> Applied
    ensures { result ≡ record { answer = Err r; session = s } }
{
    Applied {
        answer: Err(r),
        session: s,
    }
}

// Judges an event for which the tables and the room are long enough: rows 2 to 11 refuse it, or it is carried out.
fn judged(s: Session, e: Event, buys: &mut [u64], sells: &mut [u64], room: &mut [u64]) -> Applied
    requires { LongEnough buys.old sells.old room.old }
    ensures { AppliedAs s e buys.old sells.old room.old buys.new sells.new room.new result }
{
    match refusal::rows::verdict(s, e, buys, sells) {
        Ok(()) => accepted::carry_out(s, e, buys, sells, room),
        Err(r) => refused(r, s),
    }
}

// Applies an event: the first refusal that applies, or the clock steps and the act, with the reports in the room.
pub fn apply(s: Session, e: Event, buys: &mut [u64], sells: &mut [u64], room: &mut [u64]) -> Applied
    ensures { AppliedAs s e buys.old sells.old room.old buys.new sells.new room.new result }
{
    if !is_roomy(buys, sells, room) {
        return refused(Refusal::SmallRoom, s);
    }
    judged(s, e, buys, sells, room)
}
