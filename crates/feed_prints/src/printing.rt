// What is said is printed into an output room, and the count of bytes is answered.
ghost use Rattle.std.specs.Prelude.{◌+◌, ◌*◌, ◌≤◌, length};
ghost use Rattle.terms.specs.Sizes.{line_room};
ghost use Rattle.tables.specs.Lengths.{record_length};
ghost use Rattle.feed_law.specs.Texts.{records_text, refused_text, bad_text, end_text};
ghost use Rattle.feed_law.specs.declared.Stage.{Stage};
ghost use Rattle.feed_law.specs.Feeds.{Prints, EndTold, RecordTold};

use feed_law::Stage;
use tables::lengths;
use terms::Refusal;

// Prints the line that tells of a refused event.
pub fn tell_refused(time: u64, refusal: Refusal, out: &mut [u8]) -> usize
    requires { line_room ≤ length out.old }
    ensures { Prints out.old (refused_text time refusal) result out.new }
{
    lines_writing_reports::write_refused(time, refusal, out).unwrap_or(0)
}

// Prints the line that tells of a bad line, or of refused settings.
pub fn tell_bad(refusal: Refusal, place: usize, out: &mut [u8]) -> usize
    requires { line_room ≤ length out.old }
    ensures { Prints out.old (bad_text refusal place) result out.new }
{
    lines_writing_reports::write_bad(refusal, place, out).unwrap_or(0)
}

// Prints what the end of the input says of a day that has begun, where `rest` bytes stand behind the last line.
fn tell_tail(rest: usize, out: &mut [u8]) -> usize
    requires { line_room ≤ length out.old }
    ensures { Prints out.old (end_text Stage.Trading rest) result out.new }
{
    if rest == 0 {
        return 0;
    }
    tell_bad(Refusal::LineUnfinished, rest, out)
}

// Prints what the end of the input says, by where the run stands.
pub fn tell_end(stage: Stage, rest: usize, out: &mut [u8]) -> usize
    requires { line_room ≤ length out.old }
    ensures { EndTold stage rest out.old result out.new }
{
    match stage {
        Stage::Awaiting => tell_bad(Refusal::LineUnfinished, rest, out),
        Stage::Trading => tell_tail(rest, out),
        Stage::Over => 0,
    }
}

// Prints the line of the record that stands in the room from `at` on; numbers that are no report's print nothing.
fn tell_record(room: &[u64], at: usize, out: &mut [u8]) -> usize
    requires { (at + record_length ≤ length room.now) × (line_room ≤ length out.old) }
    ensures { RecordTold room.now at out.old result out.new }
{
    match records::read_record(room, at) {
        Some(report) => { lines_writing_reports::write_report(report, out).unwrap_or(0) }
        None => 0,
    }
}

// Prints the lines of the first `count` records in the room.
pub fn tell_records(room: &[u64], count: u64, out: &mut [u8]) -> usize
    requires { (record_length * count ≤ length room.now) × (line_room * count ≤ length out.old) }
    ensures { Prints out.old (records_text count room.now) result out.new }
{
    let mut wrote = 0;
    for i in 0..count as usize {
        wrote += tell_record(room, lengths::RECORD * i, &mut out[wrote..]);
    }
    wrote
}
