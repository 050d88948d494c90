// All lines of some bytes are taken, as far as there is room for what they print.
ghost use Rattle.std.specs.Prelude.{◌-◌, ◌≤◌, ◌≡◌, length};
ghost use Rattle.feed_law.specs.declared.Stop.{Stop};
ghost use Rattle.feed_law.specs.Texts.{most_at};
ghost use Rattle.feed_law.specs.Turns.{stop_at};
ghost use Rattle.feed_law.specs.Feeds.{LineTaken, TakenAs, TakenBy, taken_to, lines_of, fed_of, ended_of, EndsBehind};

use engine::apply;
use feed_law::{Run, Stage, Stop, Taken, Turned};
use feed_prints::printing;
use feed_turns::turns;
use tables::lengths;
use terms::{Refusal, sizes};

// The length of an output room that holds the reports of any event.
pub const TEXT: usize = lengths::REPORTS * sizes::LINE;

// The most that the next line can print, by where the run stands.
fn most_at(stage: Stage) -> usize
    ensures { result ≡ most_at stage }
{
    match stage {
        Stage::Awaiting => sizes::LINE,
        Stage::Trading => TEXT,
        Stage::Over => 0,
    }
}

// Why a run takes no further line once it has gone through its bytes.
fn stop_at(stage: Stage) -> Stop
    ensures { result ≡ stop_at stage }
{
    match stage {
        Stage::Awaiting | Stage::Trading => Stop::Waits,
        Stage::Over => Stop::Over,
    }
}

// What a call answers: where the run stands, the bytes taken and printed, and why it stopped.
fn taken(run: Run, used: usize, wrote: usize, stop: Stop) -> Taken
    ensures { result ≡ taken_to run used wrote stop }
{
    Taken {
        run,
        used,
        wrote,
        stop,
    }
}

// Takes the line that begins at `at`, and prints behind what was written before.
fn line_at(
    run: Run,
    bytes: &[u8],
    at: usize,
    wrote: usize,
    buys: &mut [u64],
    sells: &mut [u64],
    room: &mut [u64],
    out: &mut [u8],
) -> Turned
    requires { (at ≤ length bytes.now) × (wrote ≤ length out.old) × (most_at run.stage ≤ length out.old - wrote) }
    ensures { LineTaken run buys.old sells.old room.old bytes.now at wrote out.old buys.new sells.new room.new out.new result }
{
    turns::turn(run, &bytes[at..], buys, sells, room, &mut out[wrote..])
}

// Takes the lines of the bytes, as long as there is room for the most that the next one can print.
fn while_room(
    run: Run,
    bytes: &[u8],
    buys: &mut [u64],
    sells: &mut [u64],
    room: &mut [u64],
    out: &mut [u8],
) -> Taken
    ensures { TakenAs (lines_of run buys.old sells.old room.old bytes.now out.old) out.old buys.new sells.new room.new out.new result }
{
    let mut now = run;
    let mut at: usize = 0;
    let mut wrote: usize = 0;
    // no `for` is plainer: the place goes on by the length of each line
    while at < bytes.len() {
        let stands = now.stage;
        if out.len() - wrote < most_at(stands) {
            return taken(now, at, wrote, Stop::Full);
        }
        let t = line_at(now, bytes, at, wrote, buys, sells, room, out);
        let used = t.used;
        let told = t.wrote;
        now = t.run;
        wrote += told;
        if used == 0 {
            let stage = now.stage;
            return Taken {
                run: now,
                used: at,
                wrote,
                stop: stop_at(stage),
            };
        }
        at += used;
    }
    let stage = now.stage;
    taken(now, at, wrote, stop_at(stage))
}

// Takes the whole lines of some bytes, prints what they say, and answers how far it came: the bytes that are left are to be handed in again,
// with more behind them.
pub fn take_lines(
    run: Run,
    bytes: &[u8],
    buys: &mut [u64],
    sells: &mut [u64],
    room: &mut [u64],
    out: &mut [u8],
) -> Taken
    ensures { TakenBy fed_of run buys.old sells.old room.old bytes.now out.old buys.new sells.new room.new out.new result }
{
    if !apply::is_roomy(buys, sells, room) {
        return taken(run, 0, 0, Stop::Refused(Refusal::SmallRoom));
    }
    while_room(run, bytes, buys, sells, room, out)
}

// Tells the end behind lines that left no whole one, if the room has place for a line; then the run is over.
fn finish(t: Taken, bytes: usize, out: &mut [u8]) -> Taken
    requires { (t.used ≤ bytes) × (t.wrote ≤ length out.old) × (t.stop ≡ Stop.Waits) }
    ensures { EndsBehind t bytes out.old out.new result }
{
    let run = t.run;
    let used = t.used;
    let wrote = t.wrote;
    let stage = run.stage;
    let session = run.session;
    if out.len() - wrote < sizes::LINE {
        return taken(run, used, wrote, Stop::Full);
    }
    let told = printing::tell_end(stage, bytes - used, &mut out[wrote..]);
    let over = Run {
        stage: Stage::Over,
        session,
    };
    taken(over, used, wrote + told, Stop::Over)
}

// Tells the end behind lines that were taken, if they stopped because no whole one is left.
fn end_behind(t: Taken, bytes: usize, out: &mut [u8]) -> Taken
    requires { (t.used ≤ bytes) × (t.wrote ≤ length out.old) }
    ensures { EndsBehind t bytes out.old out.new result }
{
    let stop = t.stop;
    match stop {
        Stop::Waits => finish(t, bytes, out),
        Stop::Full => t,
        Stop::Over => t,
        Stop::Refused(r) => t,
    }
}

// Takes the whole lines of the last bytes as `take_lines` does, and then tells the end of the input. Where the output room must be emptied
// first it answers so, and the bytes that are left are to be handed in again.
pub fn take_end(
    run: Run,
    bytes: &[u8],
    buys: &mut [u64],
    sells: &mut [u64],
    room: &mut [u64],
    out: &mut [u8],
) -> Taken
    ensures { TakenBy ended_of run buys.old sells.old room.old bytes.now out.old buys.new sells.new room.new out.new result }
{
    let t = take_lines(run, bytes, buys, sells, room, out);
    end_behind(t, bytes.len(), out)
}
