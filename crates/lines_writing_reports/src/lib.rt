// lines_writing_reports: what is said is written into a lent line room: the line of a report, of a refused event, of a bad line.
// It may use terms, lines_writing and lines_writing_law, and what these use. It promises of any value and room what lines_writing does.

#![tactic(auto)]

ghost use Rattle.std.specs.Prelude.{◌++◌};
ghost use Rattle.lines_writing_law.specs.Lines.{said_head, report_figures, render_report, refused_figures, render_refused, bad_figures, render_bad};
ghost use Rattle.lines_writing_law.specs.Writes.{Writes, WritesForm, Formed};

use lines_writing::forms;
use terms::{Refusal, Report, Said};

// Writes a line that begins as every report line does.
fn say(tail: &[u8], numbers: &[u64], room: &mut [u8]) -> Result<usize, Refusal>
    requires { Formed said_head tail.now numbers.now }
    ensures { WritesForm room.old (said_head ++ tail.now) numbers.now result room.new }
{
    forms::write(b"t=# say=", tail, numbers, room)
}

// Writes the line of a report.
pub fn write_report(report: Report, room: &mut [u8]) -> Result<usize, Refusal>
    ensures { Writes room.old (render_report report) (report_figures report) result room.new }
{
    let time = report.time;
    let said = report.said;
    match said {
        Said::Accept(number) => {
            let numbers = [time, number];
            say(b"accept id=#\n", &numbers, room)
        }
        Said::Trade(d) => {
            let numbers = [time, d.buy, d.sell, d.lots, d.price];
            say(b"trade buy=# sell=# qty=# price=#\n", &numbers, room)
        }
        Said::Convert(o) => {
            let numbers = [time, o.number, o.lots, o.price];
            say(b"convert id=# qty=# price=#\n", &numbers, room)
        }
        Said::Cancel(e) => {
            let numbers = [time, e.number, e.lots, u64::from(e.why)];
            say(b"cancel id=# qty=# why=#\n", &numbers, room)
        }
        Said::Slab(b) => {
            let numbers = [time, b.low, b.high];
            say(b"slab low=# high=#\n", &numbers, room)
        }
        Said::Ref(price) => {
            let numbers = [time, price];
            say(b"ref price=#\n", &numbers, room)
        }
        Said::Close(c) => {
            let numbers = [time, c.price, c.base];
            say(b"close price=# base=#\n", &numbers, room)
        }
    }
}

// Writes the line that the program prints for a refused event.
pub fn write_refused(time: u64, refusal: Refusal, room: &mut [u8]) -> Result<usize, Refusal>
    ensures { Writes room.old (render_refused time refusal) (refused_figures time refusal) result room.new }
{
    let numbers = [time, u64::from(refusal)];
    say(b"refuse code=#\n", &numbers, room)
}

// Writes the line that the program prints for a bad line, or for refused settings.
pub fn write_bad(refusal: Refusal, place: usize, room: &mut [u8]) -> Result<usize, Refusal>
    ensures { Writes room.old (render_bad refusal place) (bad_figures refusal place) result room.new }
{
    let numbers = [u64::from(refusal), place as u64];
    forms::write(b"say=bad", b" code=# at=#\n", &numbers, room)
}
