// lines_reading: session lines are read. Each reader takes one sort of line, from the start of the bytes that it is handed.
// It may use terms, lines_text, lines_reading_law and lines_reading_settings. It promises, for any bytes: a value and the length of its
// line; 14 exactly where the bytes begin a line and hold no whole one; 15 else, with the length of the longest start that begins a line.
// The line of a value is what is written for it.

#![tactic(auto)]

pub mod events;

ghost use Rattle.lines_reading_law.specs.Answers.{EventRead, SettingsRead};

use lines_reading_settings::settings;
use lines_text_law::{LineError, Parsed};
use terms::{Event, Settings};

// Reads the event whose line the bytes start with.
pub fn read_event(bytes: &[u8]) -> Result<Parsed<Event>, LineError>
    ensures { EventRead bytes.now result }
{
    events::read(bytes)
}

// Reads the settings whose line the bytes start with.
pub fn read_settings(bytes: &[u8]) -> Result<Parsed<Settings>, LineError>
    ensures { SettingsRead bytes.now result }
{
    settings::read(bytes)
}
