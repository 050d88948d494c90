// The calls on lines: settings and events read and written, reports written.
ghost use Rattle.std.specs.Prelude.{◌≡◌, []};
ghost use Rattle.lines_writing_law.specs.Writes.{line_verdict};
ghost use Rattle.desk_packing_law.specs.Answers.{answer_of};
ghost use Rattle.desk_law.specs.Reads.{EventReadInto, SettingsReadInto};
ghost use Rattle.desk_law.specs.Writes.{wrote_number, Few, SettingsWrittenOn, EventWrittenOn, ReportWrittenOn};

use desk_packing::{events, runs, settings};
use lines_text_law::LineError;
use tables::{flat, lengths};
use terms::{Refusal, sizes};

// A writer's answer as a number.
pub fn wrote(w: Result<usize, Refusal>) -> u64
    requires { Few w }
    ensures { result ≡ wrote_number w }
{
    match w {
        Ok(n) => desk_answers::done(n as u64),
        Err(r) => desk_answers::refused(r),
    }
}

// Reads the event whose line the bytes start with; answers how many bytes it took, or 14, or 15 with the place.
pub fn kakoludar_read_event(line: &[u8], event: &mut [u64]) -> u64
    ensures { EventReadInto line.now event.old event.new result }
{
    if event.len() < runs::EVENT {
        return desk_answers::refused(Refusal::SmallRoom);
    }
    match lines_reading::read_event(line) {
        Ok(line) => {
            let numbers = events::pack(line.value);
            flat::lay(event, &numbers);
            desk_answers::done(line.next as u64)
        }
        Err(LineError::Unfinished) => desk_answers::refused(Refusal::LineUnfinished),
        Err(LineError::Wrong(n)) => desk_answers::wrong_at(n),
    }
}

// Reads the settings whose line the bytes start with; answers as for an event.
pub fn kakoludar_read_settings(line: &[u8], settings: &mut [u64]) -> u64
    ensures { SettingsReadInto line.now settings.old settings.new result }
{
    if settings.len() < runs::SETTINGS {
        return desk_answers::refused(Refusal::SmallRoom);
    }
    match lines_reading::read_settings(line) {
        Ok(line) => {
            let numbers = settings::pack(line.value);
            flat::lay(settings, &numbers);
            desk_answers::done(line.next as u64)
        }
        Err(LineError::Unfinished) => desk_answers::refused(Refusal::LineUnfinished),
        Err(LineError::Wrong(n)) => desk_answers::wrong_at(n),
    }
}

// The answer where numbers are no report's: no line is written, but the line room is judged as for any line.
fn no_line(line: &[u8]) -> u64
    ensures { result ≡ answer_of (line_verdict line.now []) 0 }
{
    if line.len() < sizes::LINE {
        return desk_answers::refused(Refusal::SmallLineRoom);
    }
    desk_answers::done(0)
}

// Writes the line of a report, from its record; answers how many bytes it has, 0 where the numbers are no report's, or a refusal.
pub fn kakoludar_write_report(report: &[u64], line: &mut [u8]) -> u64
    ensures { ReportWrittenOn report.now line.old line.new result }
{
    if report.len() < lengths::RECORD {
        return desk_answers::refused(Refusal::SmallRoom);
    }
    match records::read_record(report, 0) {
        Some(p) => wrote(lines_writing_reports::write_report(p, line)),
        None => no_line(line),
    }
}

// Writes the line of an event.
pub fn kakoludar_write_event(event: &[u64], line: &mut [u8]) -> u64
    ensures { EventWrittenOn event.now line.old line.new result }
{
    if event.len() < runs::EVENT {
        return desk_answers::refused(Refusal::SmallRoom);
    }
    match events::find(event) {
        Some(e) => wrote(lines_writing::write_event(e, line)),
        None => desk_answers::refused(Refusal::NumberRange),
    }
}

// Writes the line of settings.
pub fn kakoludar_write_settings(settings: &[u64], line: &mut [u8]) -> u64
    ensures { SettingsWrittenOn settings.now line.old line.new result }
{
    if settings.len() < runs::SETTINGS {
        return desk_answers::refused(Refusal::SmallRoom);
    }
    if !settings::is_category(settings[0]) {
        return desk_answers::refused(Refusal::SettingsRange);
    }
    let g = settings::unpack(settings);
    let w = lines_writing::write_settings(g, line);
    wrote(w)
}
