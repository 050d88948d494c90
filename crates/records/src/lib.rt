// records: reports read back from the numbers of a report room.
// It may use terms, tables and records_law. It promises, for any room and place: the report whose record stands there, or that none does.

#![tactic(auto)]

ghost use Rattle.std.specs.Prelude.{◌≡◌, get_or, take, drop};
ghost use Rattle.tables.specs.Lengths.{record_length};
ghost use Rattle.records_law.specs.Back.{RecordRead, why_by, report_if, report_in, six_in};

use tables::room;
use terms::{Band, Closing, Deal, Ended, Order, Report, Said, Why};

// The reason with this number; a number that is none's is taken for the last. No TryFrom: what is made is packed again and compared as a whole.
fn why_by(n: u64) -> Why
    ensures { result ≡ why_by n }
{
    match n {
        1 => Why::Asked,
        2 => Why::Immediate,
        3 => Why::OutOfRange,
        4 => Why::OutsideBand,
        _ => Why::DayEnd,
    }
}

// The report that says this, if the six numbers are its record.
#[tactic(auto, using(records_law::proofs::Told::told_if))]
fn told_if(said: Said, numbers: [u64; 6]) -> Option<Report>
    ensures { result ≡ report_if (record { time = get_or numbers 1 0; said = said }) (six_in numbers) }
{
    let [kind, time, a, b, c, d] = numbers;
    let report = Report { time, said };
    (room::record(report) == [kind, time, a, b, c, d]).then_some(report)
}

// The report that six numbers stand for, a row for each kind; a number that is no kind's is taken for the last. Each row compares by itself,
// where the kind is known: behind the rows, the comparison would ask for it again.
#[tactic(auto, unfolding(records_law::specs::Back::report_from, records_law::specs::Back::said_by))]
fn report_in(numbers: [u64; 6]) -> Option<Report>
    ensures { result ≡ report_in numbers }
{
    let [kind, _, a, b, c, d] = numbers;
    match kind {
        1 => told_if(Said::Accept(a), numbers),
        2 => {
            let deal = Deal {
                buy: a,
                sell: b,
                lots: c,
                price: d,
            };
            told_if(Said::Trade(deal), numbers)
        }
        3 => {
            let order = Order {
                number: a,
                price: c,
                lots: b,
            };
            told_if(Said::Convert(order), numbers)
        }
        4 => {
            let ended = Ended {
                number: a,
                lots: b,
                why: why_by(c),
            };
            told_if(Said::Cancel(ended), numbers)
        }
        5 => told_if(Said::Slab(Band { low: a, high: b }), numbers),
        6 => told_if(Said::Ref(a), numbers),
        _ => told_if(Said::Close(Closing { price: a, base: b }), numbers),
    }
}

// The report whose record stands in a report room from `at` on.
pub fn read_record(room: &[u64], at: usize) -> Option<Report>
    ensures { RecordRead (take record_length (drop at room.now)) result }
{
    let numbers: &[u64; 6] = room.get(at..)?.first_chunk()?;
    report_in(*numbers)
}
