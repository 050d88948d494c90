// desk_runs: a run of the program between two pieces of its input, as 45 numbers, for apps that keep and hand over nothing else.
// It may use feed_law, desk_packing_law and desk_packing, and what these use. It promises: packing and unpacking are the definitions of
// desk_packing_law, for any numbers whatever; numbers that are no run's are a run that is over, which takes no byte and prints none.

#![tactic(auto)]

ghost use Rattle.std.specs.Prelude.{◌≡◌, ◌≤◌, ◌<◌, ◌∷◌, length};
ghost use Rattle.tables.specs.Put.{put};
ghost use Rattle.desk_packing_law.specs.Stages.{run_length, stage_number, run_numbers, is_run, stage_from, run_from};

use desk_packing::sessions;
use feed_law::{Run, Stage};
use tables::flat;

pub const RUN: usize = 45;

// No `From`, since the number of a stage belongs to the numbers of a run: neither `Stage` nor `u64` is of this crate.
fn of_stage(stage: Stage) -> u64
    ensures { result ≡ stage_number stage }
{
    match stage {
        Stage::Awaiting => 0,
        Stage::Trading => 1,
        Stage::Over => 2,
    }
}

fn stage_from(n: u64) -> Stage
    ensures { result ≡ stage_from n }
{
    match n {
        0 => Stage::Awaiting,
        1 => Stage::Trading,
        _ => Stage::Over,
    }
}

// Whether numbers are a run's.
fn is_run(ns: &[u64]) -> bool
    requires { run_length ≤ length ns.now }
    ensures { result ≡ is_run ns.now }
{
    (ns[0] <= 2) & sessions::is_session(&ns[1..])
}

// The run that some numbers stand for; one that is over where they are no run's.
pub fn unpack(ns: &[u64]) -> Run
    requires { run_length ≤ length ns.now }
    ensures { result ≡ run_from ns.now }
{
    if !is_run(ns) {
        return Run {
            stage: Stage::Over,
            session: sessions::fixed(),
        };
    }
    Run {
        stage: stage_from(ns[0]),
        session: sessions::unpack(&ns[1..]),
    }
}

// Writes a number to the front of a slice and others behind it; what lies past them is as it was.
fn lay_behind(ns: &mut [u64], first: u64, rest: &[u64])
    requires { length rest.now < length ns.old }
    ensures { ns.new ≡ put ns.old 0 (first ∷ rest.now) }
{
    flat::lay(&mut ns[1..], rest);
    ns[0] = first;
}

// Writes the numbers of a run to the front of a slice.
pub fn lay(ns: &mut [u64], run: Run)
    requires { run_length ≤ length ns.old }
    ensures { ns.new ≡ put ns.old 0 (run_numbers run) }
{
    lay_behind(ns, of_stage(run.stage), &sessions::pack(run.session));
}
