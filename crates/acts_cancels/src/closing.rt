// The close: every order is cancelled, then the close price and the next base are reported.
ghost use Rattle.tables.specs.Tables.{decode};
ghost use Rattle.acts_law.specs.Acts.{finished};
ghost use Rattle.acts_law.specs.code.Written.{Written, Finishing, ClosedAs};

use acts_reports::telling;
use rules::close;
use state_law::Session;
use tables::side::Orders;
use terms::Said;

// Writes the cancels of the buys, those of the sells and the close report, and answers the place behind them.
fn tell_close(
    s: Session,
    time: u64,
    settle: u64,
    buys: &[u64],
    sells: &[u64],
    room: &mut [u64],
) -> usize
    requires { Finishing s buys.now sells.now room.old }
    ensures { Written room.old 0 (finished s time settle (decode s.live.buys buys.now) (decode s.live.sells sells.now)).reports room.new result }
{
    let tape = s.tape;
    let nbuys = s.live.buys as usize;
    let nsells = s.live.sells as usize;
    let closing = close::closing(s.settings.tick, s.settings.close, tape, settle);
    let bought = telling::cancel_all(
        room,
        0,
        time,
        Orders {
            table: buys,
            count: nbuys,
        },
    );
    let sold = telling::cancel_all(
        room,
        bought,
        time,
        Orders {
            table: sells,
            count: nsells,
        },
    );
    telling::tell(room, sold, time, Said::Close(closing))
}

// Writes these reports, and leaves both tables empty.
pub fn finish(
    s: Session,
    time: u64,
    settle: u64,
    buys: &mut [u64],
    sells: &mut [u64],
    room: &mut [u64],
) -> usize
    requires { Finishing s buys.old sells.old room.old }
    ensures { ClosedAs s time settle (decode s.live.buys buys.old) (decode s.live.sells sells.old) buys.old sells.old room.old buys.new sells.new room.new result }
{
    let next = tell_close(s, time, settle, buys, sells, room);
    tables::orders::clear_tail(buys, 0);
    tables::orders::clear_tail(sells, 0);
    next
}
