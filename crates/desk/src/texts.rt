// The calls on text: session lines in, report lines out. Between calls the app keeps the run as numbers.
ghost use Rattle.std.specs.Prelude.{◌≡◌, ◌≤◌, length};
ghost use Rattle.desk_packing_law.specs.Stages.{run_length};
ghost use Rattle.feed_law.specs.Feeds.{fed_of, ended_of};
ghost use Rattle.desk_law.specs.Feeding.{StartedAs, counts_length, stop_number, is_refusal, LaidAfter, LaidTaken, FedAs};

use feed::lines;
use feed_law::{Run, Stop, Taken};
use terms::Refusal;

pub const COUNTS: usize = 2;

// Writes a run that has taken no line yet; 1 if the slice is too short.
pub fn kakoludar_start(run: &mut [u64]) -> u64
    ensures { StartedAs run.old run.new result }
{
    if run.len() < desk_runs::RUN {
        return desk_answers::refused(Refusal::SmallRoom);
    }
    desk_runs::lay(run, feed::start());
    desk_answers::done(0)
}

// The answer for the reason why no further line was taken.
fn answer_to(stop: Stop) -> u64
    ensures { result ≡ stop_number stop }
{
    match stop {
        Stop::Waits => desk_answers::done(0),
        Stop::Full => desk_answers::done(1),
        Stop::Over => desk_answers::done(2),
        Stop::Refused(r) => desk_answers::refused(r),
    }
}

fn is_refusal(stop: Stop) -> bool
    ensures { result ≡ is_refusal stop }
{
    matches!(stop, Stop::Refused(_))
}

// Writes the run, and both counts.
fn lay_after(run: &mut [u64], counts: &mut [u64], after: Run, used: usize, wrote: usize)
    requires { (run_length ≤ length run.old) × (counts_length ≤ length counts.old) }
    ensures { LaidAfter run.old counts.old after used wrote run.new counts.new }
{
    desk_runs::lay(run, after);
    counts[0] = used as u64;
    counts[1] = wrote as u64;
}

// Writes the run after some lines and both counts, unless the call was refused; answers why no further line was taken.
fn lay_taken(run: &mut [u64], counts: &mut [u64], t: Taken) -> u64
    requires { (run_length ≤ length run.old) × (counts_length ≤ length counts.old) }
    ensures { LaidTaken run.old counts.old t run.new counts.new result }
{
    let stop = t.stop;
    let after = t.run;
    let used = t.used;
    let told = t.wrote;
    let answer = answer_to(stop);
    if is_refusal(stop) {
        return answer;
    }
    lay_after(run, counts, after, used, told);
    answer
}

// Takes the whole lines of some bytes and prints what they say. Answers why it took no more; the counts are of the bytes taken and the
// bytes printed. A refusal writes nothing.
pub fn kakoludar_feed(
    run: &mut [u64],
    bytes: &[u8],
    buys: &mut [u64],
    sells: &mut [u64],
    room: &mut [u64],
    out: &mut [u8],
    counts: &mut [u64],
) -> u64
    ensures { FedAs fed_of run.old bytes.now buys.old sells.old room.old out.old counts.old run.new buys.new sells.new room.new out.new counts.new result }
{
    if run.len() < desk_runs::RUN {
        return desk_answers::refused(Refusal::SmallRoom);
    }
    if counts.len() < COUNTS {
        return desk_answers::refused(Refusal::SmallRoom);
    }
    let before = desk_runs::unpack(run);
    let taken = lines::take_lines(before, bytes, buys, sells, room, out);
    lay_taken(run, counts, taken)
}

// The same with the last bytes of the input: once no whole line is left, the end of the input is judged too, and the run is over.
pub fn kakoludar_end(
    run: &mut [u64],
    bytes: &[u8],
    buys: &mut [u64],
    sells: &mut [u64],
    room: &mut [u64],
    out: &mut [u8],
    counts: &mut [u64],
) -> u64
    ensures { FedAs ended_of run.old bytes.now buys.old sells.old room.old out.old counts.old run.new buys.new sells.new room.new out.new counts.new result }
{
    if run.len() < desk_runs::RUN {
        return desk_answers::refused(Refusal::SmallRoom);
    }
    if counts.len() < COUNTS {
        return desk_answers::refused(Refusal::SmallRoom);
    }
    let before = desk_runs::unpack(run);
    let taken = lines::take_end(before, bytes, buys, sells, room, out);
    lay_taken(run, counts, taken)
}
