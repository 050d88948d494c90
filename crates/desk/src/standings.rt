// Where a session stands, as numbers; and the numbers by which an app knows this library and its layout.
ghost use Rattle.std.specs.Prelude.{◌≡◌, ◌≤◌, length};
ghost use Rattle.desk_law.specs.Standings.{standing_length, standing_numbers, LaidStood, StandingOn};
ghost use Rattle.desk_packing_law.specs.Runs.{layout};
ghost use Rattle.desk_law.specs.Versions.{version};

use desk_packing::{runs, sessions};
use engine::standings;
use engine_law::{Standing, Stood};
use tables::flat;
use terms::Refusal;

pub const STANDING: usize = 14;

pub const VERSION: u64 = 3000;

// The numbers of a standing.
fn packed(st: Standing) -> [u64; 14]
    ensures { result ≡ standing_numbers st }
{
    let band = st.band;
    let range = st.range;
    [
        st.percent,
        band.low,
        band.high,
        range.low,
        range.high,
        st.reference,
        u64::from(st.cooling),
        st.ends,
        st.price,
        st.lots,
        st.buys,
        st.sells,
        st.given,
        st.trades,
    ]
}

// Writes a standing, unless the call was refused; answers 0 or the refusal.
fn lay_stood(run: &mut [u64], stood: Stood) -> u64
    requires { standing_length ≤ length run.old }
    ensures { LaidStood stood run.old run.new result }
{
    let verdict = stood.verdict;
    let st = stood.standing;
    match verdict {
        Ok(()) => {
            let numbers = packed(st);
            flat::lay(run, &numbers);
            desk_answers::done(0)
        }
        Err(r) => desk_answers::refused(r),
    }
}

// Where a session stands: 0 and 14 numbers; or 1 if a slice is too short, 2 if the session is not sound, with nothing written.
pub fn kakoludar_standing(session: &[u64], buys: &[u64], sells: &[u64], standing: &mut [u64]) -> u64
    ensures { StandingOn session.now buys.now sells.now standing.old standing.new result }
{
    if session.len() < runs::SESSION {
        return desk_answers::refused(Refusal::SmallRoom);
    }
    if standing.len() < STANDING {
        return desk_answers::refused(Refusal::SmallRoom);
    }
    let s = sessions::unpack(session);
    let stood = standings::standing(s, buys, sells);
    lay_stood(standing, stood)
}

// The number of this library.
pub fn kakoludar_version() -> u64
    ensures { result ≡ version }
{
    VERSION
}

// The number of the layout of stored numbers, which a session begins with.
pub fn kakoludar_layout() -> u64
    ensures { result ≡ layout }
{
    runs::LAYOUT
}
