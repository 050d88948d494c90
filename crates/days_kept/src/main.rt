// days_kept: keeps days from files and compares all that each day's file and the output are handed with an expected log. The arguments name
// the cases: NAME.day is the file as it is found, NAME.in the input, and NAME.log the log: first the bytes of the file that stay, then each
// part in its order, what is saved behind `>` and what is shown behind `<`, and `|` for each wait until all that the file was handed has reached
// the disk. A case named `wrong-..` has a log that is wrong on purpose; one named `broken-..` has a file of which a read fails behind its last byte.
// It may use io, cases, descriptors, stream_law and stream_keep. It promises that it is safe and ends. All three are read first, so that
// what a comparison answers is right for their bytes (`LogCompared` in stream_law). No file is written, and of the bytes that stay only their
// number is compared (`kept_log`).

#![tactic(auto)]

use cases::counts::{Count, Ending};
use cases::{counts, files};
use descriptors::live::Live;
use descriptors::{Failed, LoadError, args, reading};
use stream_law::{Finish, NotKept};

// The room for each text; a longer one counts as unreadable.
const TEXT: usize = 262_144;

// How the comparison of a day that was kept came out; or one of the texts could not be read.
type Told = Result<Result<Finish, NotKept>, LoadError>;

// Keeps a day and compares all that is handed on with all of an expected log.
fn compare(broken: bool, kept: &[u8], given: &[u8], expected: &[u8]) -> Result<Finish, NotKept> {
    if broken {
        return stream_keep::compare_broken(kept, given, expected);
    }
    stream_keep::compare(kept, given, expected)
}

// Reads the file, the input and the expected log, and compares.
fn hold(
    live: &Live,
    broken: bool,
    saved: Result<i32, Failed>,
    input: Result<i32, Failed>,
    expected: Result<i32, Failed>,
    file: &mut [u8],
    text: &mut [u8],
    room: &mut [u8],
) -> Told {
    let kept = reading::read_whole(live, saved?, file)?;
    let given = reading::read_whole(live, input?, text)?;
    let log = reading::read_whole(live, expected?, room)?;
    Ok(compare(broken, &file[..kept], &text[..given], &room[..log]))
}

// Runs the case of three files, with a room for each.
fn run(
    live: &mut Live,
    broken: bool,
    saved: Result<i32, Failed>,
    input: Result<i32, Failed>,
    expected: Result<i32, Failed>,
) -> Told {
    let mut file = [0u8; TEXT];
    let mut text = [0u8; TEXT];
    let mut room = [0u8; TEXT];
    let told = hold(
        live, broken, saved, input, expected, &mut file, &mut text, &mut room,
    );
    live.close_opened(saved);
    live.close_opened(input);
    live.close_opened(expected);
    told
}

// How a case ended: that the file could not be read is right just where a read of it fails.
fn ending(broken: bool, told: Told) -> Ending {
    match told {
        Ok(Ok(Finish::Same)) => Ending::Right,
        Ok(Ok(Finish::Differs)) => Ending::Wrong,
        Ok(Err(NotKept::NotRead)) if broken => Ending::Right,
        Ok(Err(NotKept::NotRead)) => Ending::Wrong,
        _ => Ending::Unread,
    }
}

// Whether a name says that a read of the file fails.
fn is_broken(name: &[u8]) -> bool {
    name.starts_with(b"broken-")
}

// Runs the case that an argument names, and prints a line that says how it ended.
fn case(rt: &HostRuntime, live: &mut Live, i: usize, count: Count) -> Count {
    let mut path = io::buffer();
    let n = args::arg(rt, i, &mut path);
    let broken = is_broken(&path[..n]);
    let saved = files::open_file(rt, live, &mut path, n, b".day");
    let input = files::open_file(rt, live, &mut path, n, b".in");
    let expected = files::open_file(rt, live, &mut path, n, b".log");
    let told = run(live, broken, saved, input, expected);
    io::write_all(1, &path[..n]);
    counts::tell(ending(broken, told), count)
}

fn main(rt: HostRuntime) {
    let mut live = Live::none();
    let mut count = counts::none();
    for i in 1..args::count(&rt) {
        count = case(&rt, &mut live, i, count);
    }
    counts::total(count, b"kept days");
}
