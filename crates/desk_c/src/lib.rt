// desk_c: the library for C: each call of desk under the name by which an app links it, for the archive that host/library makes.
// It may use desk and the laws that its clauses name. It promises what desk promises, call by call and in the same words: each body is the
// call of desk. (A crate is a library, which crates stand on, or a static library, which C links, and not both; so desk exports nothing.)

#![tactic(auto)]

ghost use Rattle.std.specs.Prelude.{◌≡◌};
ghost use Rattle.feed_law.specs.Feeds.{fed_of, ended_of};
ghost use Rattle.desk_packing_law.specs.Runs.{layout};
ghost use Rattle.desk_law.specs.Calls.{OpenedAs, AppliedOn, sound_on, view_on};
ghost use Rattle.desk_law.specs.Reads.{EventReadInto, SettingsReadInto};
ghost use Rattle.desk_law.specs.Writes.{SettingsWrittenOn, EventWrittenOn, ReportWrittenOn};
ghost use Rattle.desk_law.specs.Resuming.{ResumedInto, ResumedLentInto};
ghost use Rattle.desk_law.specs.Standings.{StandingOn};
ghost use Rattle.desk_law.specs.Versions.{version};
ghost use Rattle.desk_law.specs.Feeding.{StartedAs, FedAs};

use desk::{calls, line_calls, resumes, standings, texts};

// Opens a session: 0 and the session, or 12 or 13 and the fixed session; 1 if a slice is too short.
#[unsafe(no_mangle)]
pub extern "C" fn kakoludar_open(settings: &[u64], session: &mut [u64]) -> u64
    ensures { OpenedAs settings.now session.old session.new result }
{
    calls::kakoludar_open(settings, session)
}

// Applies an event and answers the count of its reports, or a refusal, which writes nothing.
#[unsafe(no_mangle)]
pub extern "C" fn kakoludar_apply(
    session: &mut [u64],
    event: &[u64],
    buys: &mut [u64],
    sells: &mut [u64],
    room: &mut [u64],
) -> u64
    ensures { AppliedOn session.old event.now buys.old sells.old room.old session.new buys.new sells.new room.new result }
{
    calls::kakoludar_apply(session, event, buys, sells, room)
}

// Whether a session is sound, with the orders in its tables: 1 or 0.
#[unsafe(no_mangle)]
pub extern "C" fn kakoludar_sound(session: &[u64], buys: &[u64], sells: &[u64]) -> u64
    ensures { result ≡ sound_on session.now buys.now sells.now }
{
    calls::kakoludar_sound(session, buys, sells)
}

// The length of the view of the named side, 1 buy or 2 sell: it starts at number 0 of that side's table.
#[unsafe(no_mangle)]
pub extern "C" fn kakoludar_view<'a>(
    side: u64,
    session: &[u64],
    buys: &'a [u64],
    sells: &'a [u64],
) -> u64
    ensures { result ≡ view_on side session.now buys.now sells.now }
{
    calls::kakoludar_view(side, session, buys, sells)
}

// Reads the event whose line the bytes start with; answers how many bytes it took, or 14, or 15 with the place.
#[unsafe(no_mangle)]
pub extern "C" fn kakoludar_read_event(line: &[u8], event: &mut [u64]) -> u64
    ensures { EventReadInto line.now event.old event.new result }
{
    line_calls::kakoludar_read_event(line, event)
}

// Reads the settings whose line the bytes start with; answers as for an event.
#[unsafe(no_mangle)]
pub extern "C" fn kakoludar_read_settings(line: &[u8], settings: &mut [u64]) -> u64
    ensures { SettingsReadInto line.now settings.old settings.new result }
{
    line_calls::kakoludar_read_settings(line, settings)
}

// Writes the line of a report, from its record; answers how many bytes it has, 0 where the numbers are no report's, or a refusal.
#[unsafe(no_mangle)]
pub extern "C" fn kakoludar_write_report(report: &[u64], line: &mut [u8]) -> u64
    ensures { ReportWrittenOn report.now line.old line.new result }
{
    line_calls::kakoludar_write_report(report, line)
}

// Writes the line of an event.
#[unsafe(no_mangle)]
pub extern "C" fn kakoludar_write_event(event: &[u64], line: &mut [u8]) -> u64
    ensures { EventWrittenOn event.now line.old line.new result }
{
    line_calls::kakoludar_write_event(event, line)
}

// Writes the line of settings.
#[unsafe(no_mangle)]
pub extern "C" fn kakoludar_write_settings(settings: &[u64], line: &mut [u8]) -> u64
    ensures { SettingsWrittenOn settings.now line.old line.new result }
{
    line_calls::kakoludar_write_settings(settings, line)
}

// Comes back from saved bytes: 0, the session and the tables of the settings and all whole events, and how many bytes count; or the fixed
// session, with 1 for a short table, 14, 15 or 22, and the place. If the session's slice or the place is too short: 1, and nothing is written.
#[unsafe(no_mangle)]
pub extern "C" fn kakoludar_resume(
    saved: &[u8],
    session: &mut [u64],
    buys: &mut [u64],
    sells: &mut [u64],
    place: &mut [u64],
) -> u64
    ensures { ResumedInto saved.now session.old buys.old sells.old place.old session.new buys.new sells.new place.new result }
{
    resumes::kakoludar_resume(saved, session, buys, sells, place)
}

// The same, with lent scratch, two spare tables and a room, for an app whose stack is small. The scratch is zero afterwards.
#[unsafe(no_mangle)]
pub extern "C" fn kakoludar_resume_lent(
    saved: &[u8],
    session: &mut [u64],
    buys: &mut [u64],
    sells: &mut [u64],
    place: &mut [u64],
    bought: &mut [u64],
    sold: &mut [u64],
    room: &mut [u64],
) -> u64
    ensures { ResumedLentInto saved.now session.old buys.old sells.old place.old bought.old sold.old room.old session.new buys.new sells.new place.new bought.new sold.new room.new result }
{
    resumes::kakoludar_resume_lent(saved, session, buys, sells, place, bought, sold, room)
}

// Where a session stands: 0 and 14 numbers; or 1 if a slice is too short, 2 if the session is not sound, with nothing written.
#[unsafe(no_mangle)]
pub extern "C" fn kakoludar_standing(
    session: &[u64],
    buys: &[u64],
    sells: &[u64],
    standing: &mut [u64],
) -> u64
    ensures { StandingOn session.now buys.now sells.now standing.old standing.new result }
{
    standings::kakoludar_standing(session, buys, sells, standing)
}

// The number of this library.
#[unsafe(no_mangle)]
pub extern "C" fn kakoludar_version() -> u64
    ensures { result ≡ version }
{
    standings::kakoludar_version()
}

// The number of the layout of stored numbers, which a session begins with.
#[unsafe(no_mangle)]
pub extern "C" fn kakoludar_layout() -> u64
    ensures { result ≡ layout }
{
    standings::kakoludar_layout()
}

// Writes a run that has taken no line yet; 1 if the slice is too short.
#[unsafe(no_mangle)]
pub extern "C" fn kakoludar_start(run: &mut [u64]) -> u64
    ensures { StartedAs run.old run.new result }
{
    texts::kakoludar_start(run)
}

// Takes the whole lines of some bytes and prints what they say. Answers why it took no more; the counts are of the bytes taken and the
// bytes printed. A refusal writes nothing.
#[unsafe(no_mangle)]
pub extern "C" fn kakoludar_feed(
    run: &mut [u64],
    bytes: &[u8],
    buys: &mut [u64],
    sells: &mut [u64],
    room: &mut [u64],
    out: &mut [u8],
    counts: &mut [u64],
) -> u64
    ensures { FedAs fed_of run.old bytes.now buys.old sells.old room.old out.old counts.old run.new buys.new sells.new room.new out.new counts.new result }
{
    texts::kakoludar_feed(run, bytes, buys, sells, room, out, counts)
}

// The same with the last bytes of the input: once no whole line is left, the end of the input is judged too, and the run is over.
#[unsafe(no_mangle)]
pub extern "C" fn kakoludar_end(
    run: &mut [u64],
    bytes: &[u8],
    buys: &mut [u64],
    sells: &mut [u64],
    room: &mut [u64],
    out: &mut [u8],
    counts: &mut [u64],
) -> u64
    ensures { FedAs ended_of run.old bytes.now buys.old sells.old room.old out.old counts.old run.new buys.new sells.new room.new out.new counts.new result }
{
    texts::kakoludar_end(run, bytes, buys, sells, room, out, counts)
}
