// How long the lent numbers are, each named once for code; specs/Lengths.antt names each once for definitions.
use terms::sizes;

// How many numbers an order takes in its table, and how many a side's table has.
pub const WIDTH: usize = 3;

pub const TABLE: usize = sizes::SLOTS * WIDTH;

// How many reports one event can have, how many numbers a report has, and how many the room has.
pub const REPORTS: usize = 520;

pub const RECORD: usize = 6;

pub const ROOM: usize = REPORTS * RECORD;
