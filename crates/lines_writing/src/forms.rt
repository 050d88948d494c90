// A line is written from its form, which comes in two parts, and its numbers.
ghost use Rattle.std.specs.Prelude.{◌++◌};
ghost use Rattle.lines_writing_law.specs.Writes.{WritesForm, Formed};

use lines_text::room;
use lines_text_law::Spot;
use terms::{Refusal, sizes};

pub fn write(head: &[u8], tail: &[u8], numbers: &[u64], line: &mut [u8]) -> Result<usize, Refusal>
    requires { Formed head.now tail.now numbers.now }
    ensures { WritesForm line.old (head.now ++ tail.now) numbers.now result line.new }
{
    if line.len() < sizes::LINE {
        return Err(Refusal::SmallLineRoom);
    }
    if !room::all_writable(numbers) {
        return Err(Refusal::NumberLong);
    }
    let start = Spot { at: 0, used: 0 };
    let middle = room::put_form(line, start, head, numbers);
    let end = room::put_form(line, middle, tail, numbers);
    Ok(end.at)
}
