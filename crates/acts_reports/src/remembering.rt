// The trades of a sweep are read back from their records and remembered in the session.
ghost use Rattle.std.specs.Prelude.{◌≡◌, drop};
ghost use Rattle.state_law.specs.Trades.{with_trades};
ghost use Rattle.acts_law.specs.code.Written.{fills_at, Remembering};

use state::trades;
use state_law::Session;
use tables::lengths;
use terms::Band;

// The session after the n trades whose records stand in the room from `at` on; band is the band in force.
pub fn remember(s0: Session, band: Band, room: &[u64], at: usize, n: usize) -> Session
    requires { Remembering s0 band room.now at n }
    ensures { result ≡ with_trades s0 (fills_at n (drop at room.now)) }
{
    let mut s = s0;
    for i in 0..n {
        let place = at + lengths::RECORD * i;
        let lots = room[place + 4];
        let price = room[place + 5];
        s = trades::with_trade(s, band, price, lots);
    }
    s
}
