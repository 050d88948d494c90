// stream_keep: a day that is kept in a file. The file's lines bring the day back; then lines are read from the input, and each that the engine
// accepts is appended to the file, and has reached the disk, before its reports are printed.
// It may use descriptors, feed, feed_prints, stream, stream_back and stream_sink, and what these use. It promises that it is safe and ends, and, of a
// file and an input that are lent as texts: a comparison answers "same" just where the expected log is that of the two (`kept_log`: the day that
// goes on is what the file's bytes come back as, the file is cut to those that count, and then comes what stream_law says, in its order); and where
// a read of the file fails, nothing is cut, saved or shown, unless a bad line is told. Of a file that a path names: the day is kept just where it
// could be opened, to be read and to be appended to, and then the same code runs, down to the calls of the C library (see stream_source and
// stream_sink), for some bytes or other.

#![tactic(auto)]

ghost use Rattle.std.specs.Prelude.{◌≤◌, ◌≡◌, [], length};
ghost use Rattle.terms.specs.Sizes.{line_room};
ghost use Rattle.engine_law.specs.Calls.{LongTables, LongEnough};
ghost use Rattle.resume_law.specs.Pieces.{is_unbegun};
ghost use Rattle.descriptors.specs.declared.Failed.{Failed};
ghost use Rattle.stream_law.specs.declared.Sink.{Sink};
ghost use Rattle.stream_law.specs.declared.Source.{Source};
ghost use Rattle.stream_law.specs.Sources.{Gives};
ghost use Rattle.stream_law.specs.Streams.{holding};
ghost use Rattle.stream_law.specs.Keeping.{OnAs, trading_run, RefusedAs, BadLaid, BadTold, BegunAs, KeptAs, OpenedAs, opened_by, OpensAs, LogCompared, BrokenCompared};

use descriptors::Failed;
use descriptors::live::Live;
use feed_law::{Run, Stage};
use feed_prints::printing;
use resume_law::Back;
use state_law::Session;
use stream_law::{Finish, Mode, NotKept, Sink, Source};
use tables::lengths;
use terms::{Refusal, sizes};

// ---- a day goes on

// The run of a session that came back.
fn trading(session: Session) -> Run
    ensures { result ≡ trading_run session }
{
    Run {
        stage: Stage::Trading,
        session,
    }
}

// Cuts the file to the bytes that count, and goes on from there with the lines of the input.
fn go_on(
    live: &Live,
    input: Source,
    given: &[u8],
    file: i32,
    to: Sink,
    expected: &[u8],
    count: usize,
    run: Run,
    buys: &mut [u64],
    sells: &mut [u64],
) -> Finish
    requires { LongTables buys.old sells.old }
    ensures { OnAs expected.now (Gives given.now input) to count (holding run buys.old sells.old []) result }
{
    let cut = stream_sink::files::cut(live, to, expected, file, count);
    if !stream_sink::is_open(cut) {
        return stream_sink::finish(cut, expected);
    }
    stream::go_on(
        live,
        input,
        given,
        Mode::Keeping(file),
        cut,
        expected,
        run,
        buys,
        sells,
    )
}

// ---- nothing came back

// The line that tells of a bad line.
fn bad_line(refusal: Refusal, place: usize, out: &mut [u8]) -> usize
    requires { line_room ≤ length out.old }
    ensures { BadLaid refusal place out.old result out.new }
{
    printing::tell_bad(refusal, place, out)
}

// Tells of a bad line of the file, with a room for what is told.
fn tell_in(
    live: &Live,
    to: Sink,
    expected: &[u8],
    refusal: Refusal,
    place: usize,
    out: &mut [u8],
) -> Finish
    requires { line_room ≤ length out.old }
    ensures { BadTold expected.now to refusal place result }
{
    let n = bad_line(refusal, place, out);
    let shown = stream_sink::show(live, to, expected, &out[..n]);
    stream_sink::finish(shown, expected)
}

// Tells of the file's first bad line.
fn tell_bad(live: &Live, to: Sink, expected: &[u8], refusal: Refusal, place: usize) -> Finish
    ensures { BadTold expected.now to refusal place result }
{
    let mut line = [0u8; sizes::LINE];
    tell_in(live, to, expected, refusal, place, &mut line)
}

// Whether not even the settings line is whole, so that no day has begun.
fn is_unbegun(refusal: Refusal) -> bool
    ensures { result ≡ is_unbegun refusal }
{
    refusal == Refusal::LineUnfinished
}

// Where no day has begun the file is emptied, and the settings come from the input; another bad line is told, and nothing is read.
fn not_back(
    live: &Live,
    input: Source,
    given: &[u8],
    file: i32,
    to: Sink,
    expected: &[u8],
    refusal: Refusal,
    place: usize,
    buys: &mut [u64],
    sells: &mut [u64],
) -> Finish
    requires { LongTables buys.old sells.old }
    ensures { RefusedAs expected.now (Gives given.now input) to refusal place result }
{
    if is_unbegun(refusal) {
        let fresh = feed::start();
        return go_on(
            live, input, given, file, to, expected, 0, fresh, buys, sells,
        );
    }
    tell_bad(live, to, expected, refusal, place)
}

// ---- a whole day

// By what the file brought back: the day goes on, or nothing came back.
fn begin(
    live: &Live,
    input: Source,
    given: &[u8],
    file: i32,
    to: Sink,
    expected: &[u8],
    back: Back,
    buys: &mut [u64],
    sells: &mut [u64],
) -> Finish
    requires { LongTables buys.old sells.old }
    ensures { BegunAs expected.now (Gives given.now input) to back buys.old sells.old result }
{
    match back.answer {
        Ok(count) => {
            let run = trading(back.session);
            go_on(
                live, input, given, file, to, expected, count, run, buys, sells,
            )
        }
        Err(bad) => not_back(
            live,
            input,
            given,
            file,
            to,
            expected,
            bad.refusal,
            bad.place,
            buys,
            sells,
        ),
    }
}

// Brings back the day of a file that is open, and goes on, with the tables and the room that are lent.
fn keep_from(
    live: &Live,
    saved: Source,
    kept: &[u8],
    input: Source,
    given: &[u8],
    file: i32,
    to: Sink,
    expected: &[u8],
    buys: &mut [u64],
    sells: &mut [u64],
    room: &mut [u64],
) -> Result<Finish, NotKept>
    requires { LongEnough buys.old sells.old room.old }
    ensures { KeptAs expected.now (Gives kept.now saved) (Gives given.now input) to result }
{
    let back = stream_back::come_back(live, saved, kept, buys, sells, room);
    if !back.read {
        return Err(NotKept::NotRead);
    }
    Ok(begin(live, input, given, file, to, expected, back, buys, sells))
}

// The same, with tables and a room of its own.
fn keep_open(
    live: &Live,
    saved: Source,
    kept: &[u8],
    input: Source,
    given: &[u8],
    file: i32,
    to: Sink,
    expected: &[u8],
) -> Result<Finish, NotKept>
    ensures { KeptAs expected.now (Gives kept.now saved) (Gives given.now input) to result }
{
    let mut buys = [0u64; lengths::TABLE];
    let mut sells = [0u64; lengths::TABLE];
    let mut room = [0u64; lengths::ROOM];
    keep_from(
        live, saved, kept, input, given, file, to, expected, &mut buys, &mut sells, &mut room,
    )
}

// ---- the file

// The descriptors of a file that was opened to be read and to be appended to, if both could be.
fn opened(saved: Result<i32, Failed>, file: Result<i32, Failed>) -> Option<(i32, i32)>
    ensures { result ≡ opened_by saved file }
{
    saved.ok().zip(file.ok())
}

// Keeps the day of a file that was opened to be read and to be appended to, if both could be; no text is lent, and none is expected.
fn keep_both(
    live: &Live,
    input: i32,
    saved: Result<i32, Failed>,
    file: Result<i32, Failed>,
) -> Result<Finish, NotKept>
    ensures { OpenedAs saved file result }
{
    let Some((saved, file)) = opened(saved, file) else {
        return Err(NotKept::NotOpened);
    };
    let (saved, input) = (Source::Live(saved), Source::Live(input));
    keep_open(live, saved, &[], input, &[], file, Sink::Print, &[])
}

// Keeps the day of a file that was opened twice or could not be; then what was opened is closed, which leaves the error that is told.
fn keep_opened(
    live: &mut Live,
    input: i32,
    saved: Result<i32, Failed>,
    file: Result<i32, Failed>,
) -> Result<Finish, NotKept>
    ensures { OpenedAs saved file result }
{
    let kept = keep_both(live, input, saved, file);
    live.close_opened(saved);
    live.close_opened(file);
    kept
}

// Makes the file that a path names where it is missing, and opens it to read it. Answers its descriptor.
fn open_or_make(rt: &HostRuntime, live: &mut Live, path: &[u8]) -> Result<i32, Failed> {
    let made = live.create(rt, path);
    live.close_opened(made);
    live.open_read(rt, path)
}

// ---- a whole day, from its file on

// Keeps the day of the file that a path names: brings it back, and goes on with the lines of a descriptor.
pub fn keep(rt: &HostRuntime, live: &mut Live, input: i32, path: &[u8]) -> Result<Finish, NotKept>
    ensures { OpensAs Failed result }
{
    let saved = open_or_make(rt, live, path);
    let file = live.open_append(rt, path);
    keep_opened(live, input, saved, file)
}

// What keeping a day comes to where all that it hands on is held against an expected log; nothing is written, so the file is no descriptor's.
fn held_against(
    saved: Source,
    kept: &[u8],
    given: &[u8],
    expected: &[u8],
) -> Result<Finish, NotKept>
    ensures { KeptAs expected.now (Gives kept.now saved) (Gives given.now (Source.Text 0)) (Sink.Match 0) result }
{
    let live = Live::none();
    let input = Source::Text(0);
    keep_open(
        &live,
        saved,
        kept,
        input,
        given,
        -1,
        Sink::Match(0),
        expected,
    )
}

// Holds all that keeping a day would hand on, to its file and to the output, against an expected log, for a file and an input that are lent as
// texts.
pub fn compare(kept: &[u8], given: &[u8], expected: &[u8]) -> Result<Finish, NotKept>
    ensures { LogCompared kept.now given.now expected.now result }
{
    held_against(Source::Text(0), kept, given, expected)
}

// The same, where a read of the file fails behind the text.
pub fn compare_broken(kept: &[u8], given: &[u8], expected: &[u8]) -> Result<Finish, NotKept>
    ensures { BrokenCompared kept.now given.now expected.now result }
{
    held_against(Source::Broken(0), kept, given, expected)
}
