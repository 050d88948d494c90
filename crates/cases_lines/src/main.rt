// cases_lines: reads the lines of document 01's listing from standard input and writes them again; then reads each of them cut after every
// byte and with every byte changed; then single lines, for their places; then writes the listing's reports from their records, and refusals.

#![tactic(auto)]

ghost use Rattle.std.specs.Prelude.{◌<◌, ◌≤◌, length};

use lines_text_law::LineError;
use tables::lengths;
use terms::{Act, Event, Refusal, sizes};

// The descriptors of standard input and standard output.
const INPUT: i32 = 0;

const OUTPUT: i32 = 1;

// The records of the listing's reports, and two that are no report's: an unknown kind, and an unused number that is not zero.
const RECORDS: [u64; 90] = [
    1, 0, 1, 0, 0, 0, 1, 1000, 2, 0, 0, 0, 2, 1000, 2, 1, 1, 10150, 6, 60000, 10150, 0, 0, 0, 1,
    60000, 3, 0, 0, 0, 1, 61000, 4, 0, 0, 0, 2, 61000, 4, 1, 3, 10150, 2, 61000, 4, 3, 2, 10300, 3,
    61000, 4, 1, 10300, 0, 5, 961000, 9400, 10600, 0, 0, 6, 961000, 10225, 0, 0, 0, 4, 961000, 4,
    1, 1, 0, 7, 3600000, 10300, 10200, 0, 0, 8, 5, 1, 2, 3, 4, 1, 5, 1, 0, 0, 1,
];

// Prints what a writer left in its room, or the number of its refusal.
fn show(wrote: Result<usize, Refusal>, line: &[u8]) {
    match wrote {
        Ok(n) => {
            if n <= line.len() {
                io::write_all(OUTPUT, &line[0..n]);
            }
        }
        Err(r) => {
            io::write_all(OUTPUT, b"refused ");
            io::print_decimal(OUTPUT, u64::from(r));
            io::write_all(OUTPUT, b"\n");
        }
    }
}

fn show_bad(refusal: Refusal, place: usize) {
    let mut line = [0u8; sizes::LINE];
    let wrote = lines_writing_reports::write_bad(refusal, place, &mut line);
    show(wrote, &line);
}

// Prints the event that the bytes start with, written again, or what is wrong; answers how many bytes it took.
fn show_event(bytes: &[u8]) -> usize {
    match lines_reading::read_event(bytes) {
        Ok(read) => {
            let mut line = [0u8; sizes::LINE];
            let wrote = lines_writing::write_event(read.value, &mut line);
            show(wrote, &line);
            read.next
        }
        Err(LineError::Unfinished) => {
            show_bad(Refusal::LineUnfinished, bytes.len());
            0
        }
        Err(LineError::Wrong(p)) => {
            show_bad(Refusal::LineWrong, p);
            0
        }
    }
}

// Does the same for settings.
fn show_settings(bytes: &[u8]) -> usize {
    match lines_reading::read_settings(bytes) {
        Ok(read) => {
            let mut line = [0u8; sizes::LINE];
            let wrote = lines_writing::write_settings(read.value, &mut line);
            show(wrote, &line);
            read.next
        }
        Err(LineError::Unfinished) => {
            show_bad(Refusal::LineUnfinished, bytes.len());
            0
        }
        Err(LineError::Wrong(p)) => {
            show_bad(Refusal::LineWrong, p);
            0
        }
    }
}

fn show_line(settings: bool, bytes: &[u8]) {
    if settings {
        show_settings(bytes);
    } else {
        show_event(bytes);
    }
}

// The place behind the first newline from `at` on, or the end of the bytes.
fn line_end(bytes: &[u8], at: usize) -> usize
    requires { at < length bytes.now }
    ensures { (at < result) × (result ≤ length bytes.now) }
{
    for p in at..bytes.len() {
        if bytes[p] == b'\n' {
            return p + 1;
        }
    }
    bytes.len()
}

// Shows line after line: settings first, then events. Each is read with all that follows it.
fn show_lines(bytes: &[u8]) {
    let mut at = 0;
    // no `for` is plainer: the place goes on by the length of each line
    while at < bytes.len() {
        show_line(at == 0, &bytes[at..]);
        at = line_end(bytes, at);
    }
}

// Shows a line cut after each of its bytes.
fn cut(settings: bool, line: &[u8]) {
    for k in 0..line.len() {
        show_line(settings, &line[..k]);
    }
}

// Shows a line with each of its bytes changed.
fn change(settings: bool, line: &mut [u8]) {
    for i in 0..line.len() {
        let b = line[i];
        line[i] = b ^ 1;
        show_line(settings, line);
        line[i] = b;
    }
}

fn damage(bytes: &mut [u8]) {
    let mut at = 0;
    // no `for` is plainer: the place goes on by the length of each line
    while at < bytes.len() {
        let end = line_end(bytes, at);
        cut(at == 0, &bytes[at..end]);
        change(at == 0, &mut bytes[at..end]);
        at = end;
    }
}

// Shows single lines, most of them wrong or unfinished: a wrong one is answered with its place.
fn show_places() {
    show_event(b"");
    show_settings(b"");
    show_event(b"t=0");
    show_event(b"t=00 do=clock\n");
    show_event(b"t=1234567890 do=clock\n");
    show_event(b"t=123456789 do=clock\n");
    show_event(b"t=5 do=clock\r\n");
    show_event(b"t=5 do=clock \n");
    show_event(b"t=5  do=clock\n");
    show_event(b"t=5 do=buy kind=limit life=day qty=1\n");
    show_event(b"t=5 do=buy kind=market life=day qty=1 price=5\n");
    show_event(b"\n");
    show_event(b"cat=gems base=1\n");
    show_settings(b"cat=gemsx base=1\n");
    show_settings(b"t=5 do=clock\n");
}

// Shows the report whose record stands at a place of a room.
fn show_report(room: &[u64], at: usize) {
    match records::read_record(room, at) {
        Some(report) => {
            let mut line = [0u8; sizes::LINE];
            let wrote = lines_writing_reports::write_report(report, &mut line);
            show(wrote, &line);
        }
        None => {
            io::write_all(OUTPUT, b"no report\n");
        }
    }
}

fn show_reports(room: &[u64]) {
    let mut at = 0;
    // no `for` is plainer: the last turn shows what is no whole record, too
    while at < room.len() {
        show_report(room, at);
        if room.len() - at < lengths::RECORD {
            return;
        }
        at += lengths::RECORD;
    }
}

// Shows the two refusals of writers, 16 before 17, and the line that the program prints for a refused event.
fn show_refusals() {
    let long = Event {
        time: sizes::DIGITS + 1,
        act: Act::Clock,
    };
    let mut line = [0u8; sizes::LINE];
    let mut short = [0u8; sizes::LINE - 1];
    let a = lines_writing::write_event(long, &mut short);
    show(a, &short);
    let b = lines_writing::write_event(long, &mut line);
    show(b, &line);
    let c = lines_writing_reports::write_refused(5, Refusal::OutsideBand, &mut line);
    show(c, &line);
}

fn main() {
    let mut text = io::buffer();
    let n = io::read_full(INPUT, &mut text);
    show_lines(&text[0..n]);
    damage(&mut text[0..n]);
    show_places();
    let records = RECORDS;
    show_reports(&records);
    show_refusals();
}
