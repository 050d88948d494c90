// feed: text in, text out. Bytes go line by line to the readers and the engine, and what these say goes to an output room as text.
// It may use every crate below it. It promises, of any bytes, tables and rooms: what is printed, taken and left is that of feed_law, and so
// does not depend on how the input is cut into pieces.

#![tactic(auto)]

pub mod lines;

ghost use Rattle.std.specs.Prelude.{◌≡◌};
ghost use Rattle.feed_law.specs.Feeds.{fresh_run};

use feed_law::{Run, Stage};
use state::opening;

// A run before its first line.
pub fn start() -> Run
    ensures { result ≡ fresh_run }
{
    Run {
        stage: Stage::Awaiting,
        session: opening::fixed(),
    }
}
