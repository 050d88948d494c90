// days: runs whole days from files and compares what each prints with its expected output. The arguments name the days: NAME.in and NAME.out.
// Both files are read first, so that what the comparison answers is right for their bytes (`Compares` in stream_law).

#![tactic(auto)]

use cases::counts::{Count, Ending};
use cases::{counts, files};
use descriptors::live::Live;
use descriptors::{Failed, LoadError, args, reading};
use feed::lines;
use stream_law::Finish;

// The room for an expected output; a longer one counts as unreadable.
const EXPECTED: usize = lines::TEXT * 4;

// The room for a day's input; a longer one counts as unreadable.
const INPUT: usize = 131_072;

// Reads a day's input and an expected output, and compares all that the day prints with all of that.
fn hold(
    live: &Live,
    input: Result<i32, Failed>,
    expected: Result<i32, Failed>,
    text: &mut [u8],
    room: &mut [u8],
) -> Result<Finish, LoadError> {
    let n = reading::read_whole(live, input?, text)?;
    let m = reading::read_whole(live, expected?, room)?;
    Ok(stream::compare(&text[..n], &room[..m]))
}

// How a day's case ended.
fn ending(told: Result<Finish, LoadError>) -> Ending {
    match told {
        Ok(Finish::Same) => Ending::Right,
        Ok(Finish::Differs) => Ending::Wrong,
        Ok(Finish::Unread | Finish::Printed | Finish::Unsaved | Finish::Unwritten) | Err(_) => {
            Ending::Unread
        }
    }
}

// Runs the day of two files, with a room for each.
fn run(live: &mut Live, input: Result<i32, Failed>, expected: Result<i32, Failed>) -> Ending {
    let mut text = [0u8; INPUT];
    let mut room = [0u8; EXPECTED];
    let told = hold(live, input, expected, &mut text, &mut room);
    live.close_opened(input);
    live.close_opened(expected);
    ending(told)
}

// Runs the day that an argument names, and prints a line that says how it ended.
fn day(rt: &HostRuntime, live: &mut Live, i: usize, count: Count) -> Count {
    let mut path = io::buffer();
    let n = args::arg(rt, i, &mut path);
    let input = files::open_file(rt, live, &mut path, n, b".in");
    let expected = files::open_file(rt, live, &mut path, n, b".out");
    let told = run(live, input, expected);
    io::write_all(1, &path[..n]);
    counts::tell(told, count)
}

fn main(rt: HostRuntime) {
    let mut live = Live::none();
    let mut count = counts::none();
    for i in 1..args::count(&rt) {
        count = day(&rt, &mut live, i, count);
    }
    counts::total(count, b"days");
}
