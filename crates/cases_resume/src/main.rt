// cases_resume: comes back from saved bytes in files and compares the answer with the expected one. The arguments name the cases: NAME.saved
// holds the saved bytes, NAME.answer what must come back:
//   code=0 at=754                 the refusal's number, 0 for none; how many bytes count, or the refusal's place
//   buys: 1 4052 10000            only where the code is 0: the numbers of the live orders of each side, the best order first
//   sells:
// A case is right when both calls, `resume` and `resume_lent`, print just that text, leave alike tables, and have touched no number of the
// tables and the scratch that they must not. At last each lent slice is lent too short once, and each check is handed a table that must fail.

#![tactic(auto)]

mod alike;
mod controls;
mod holding;
mod judging;
mod lending;
mod text;

use cases::counts;
use cases::counts::Count;
use descriptors::args;
use descriptors::live::Live;

// Runs the case that an argument names, and prints a line that says how it ended.
fn case(rt: &HostRuntime, live: &mut Live, i: usize, count: Count) -> Count {
    let mut path = io::buffer();
    let n = args::arg(rt, i, &mut path);
    let saved = cases::files::open_file(rt, live, &mut path, n, b".saved");
    let answer = cases::files::open_file(rt, live, &mut path, n, b".answer");
    let told = holding::run(live, saved, answer);
    io::write_all(1, &path[0..n]);
    counts::tell(told, count)
}

fn main(rt: HostRuntime) {
    let mut live = Live::none();
    let mut count = counts::none();
    for i in 1..args::count(&rt) {
        count = case(&rt, &mut live, i, count);
    }
    controls::all();
    counts::total(count, b"cases");
}
