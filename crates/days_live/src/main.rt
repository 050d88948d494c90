// days_live: keeps days in files of the folder that it is run in, as the program does, and holds what then stands in each file against what must
// stand there. The arguments name the cases: NAME.in is the input, NAME.day the file, which need not be there, and NAME.saved what it must hold
// in the end. What a day shows goes to standard output. A case named `wrong-..` has a NAME.saved that is wrong on purpose.
// It may use io, cases, descriptors, stream_law and stream_keep. It promises that it is safe and ends.

#![tactic(auto)]

use cases::counts::{Count, Ending};
use cases::{counts, files};
use descriptors::live::Live;
use descriptors::{Failed, LoadError, args, reading};
use stream_law::{Finish, NotKept};

// The room for a file; a longer one counts as unreadable.
const FILE: usize = 65_536;

// Stands for the descriptor of an input that could not be opened: each read of it fails.
const NOT_OPEN: i32 = -1;

// ---- what stands in a file

// Reads what stands in the file and what must stand there, and answers whether they are the same.
fn hold(
    live: &Live,
    file: Result<i32, Failed>,
    expected: Result<i32, Failed>,
    bytes: &mut [u8],
    room: &mut [u8],
) -> Result<bool, LoadError> {
    let n = reading::read_whole(live, file?, bytes)?;
    let m = reading::read_whole(live, expected?, room)?;
    Ok(bytes[..n] == room[..m])
}

// Holds one file against another, with a room for each.
fn run(live: &mut Live, file: Result<i32, Failed>, expected: Result<i32, Failed>) -> Ending {
    let mut bytes = [0u8; FILE];
    let mut room = [0u8; FILE];
    let told = hold(live, file, expected, &mut bytes, &mut room);
    live.close_opened(file);
    live.close_opened(expected);
    match told {
        Ok(true) => Ending::Right,
        Ok(false) => Ending::Wrong,
        Err(_) => Ending::Unread,
    }
}

// ---- a case

// By how the day ended: where all was read, saved and printed, what stands in the file counts.
fn ending(kept: Result<Finish, NotKept>, held: Ending) -> Ending {
    match kept {
        Ok(Finish::Printed) => held,
        Ok(Finish::Same | Finish::Differs) => Ending::Wrong,
        Ok(Finish::Unread | Finish::Unsaved | Finish::Unwritten) | Err(_) => Ending::Unread,
    }
}

// Keeps the day of the case that an argument names, and prints a line that says what stands in its file then.
fn case(rt: &HostRuntime, live: &mut Live, i: usize, count: Count) -> Count {
    let mut path = io::buffer();
    let n = args::arg(rt, i, &mut path);
    let input = files::open_file(rt, live, &mut path, n, b".in");
    let day = files::end_with(&mut path, n, b".day").unwrap_or(0);
    let kept = stream_keep::keep(rt, live, input.unwrap_or(NOT_OPEN), &path[..day]);
    live.close_opened(input);
    let file = live.open_read(rt, &path[..day]);
    let expected = files::open_file(rt, live, &mut path, n, b".saved");
    let told = ending(kept, run(live, file, expected));
    io::write_all(1, &path[..n]);
    counts::tell(told, count)
}

fn main(rt: HostRuntime) {
    let mut live = Live::standard(&rt);
    let mut count = counts::none();
    for i in 1..args::count(&rt) {
        count = case(&rt, &mut live, i, count);
    }
    counts::total(count, b"files");
}
