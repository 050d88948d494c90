// The answer to an accepted event.
ghost use Rattle.std.specs.Prelude.{◌≡◌};
ghost use Rattle.engine_law.specs.code.Steps.{done_at};

use engine_law::Applied;
use state_law::Session;
use tables::lengths;

// The session with its new live counts, and how many reports there are, from the place where they end in the room.
pub fn done(s: Session, nbuys: usize, nsells: usize, at: usize) -> Applied
    ensures { result ≡ done_at s nbuys nsells at }
{
    let mut r = s;
    r.live.buys = nbuys as u64;
    r.live.sells = nsells as u64;
    let count = (at / lengths::RECORD) as u64;
    Applied {
        answer: Ok(count),
        session: r,
    }
}
