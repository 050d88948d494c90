// How many numbers each value takes, and where the sections of a session begin.
ghost use Rattle.std.specs.Prelude.{◌≡◌, ◌+◌, ◌≤◌, length};
ghost use Rattle.desk_packing_law.specs.Runs.{ten_at};

pub const SETTINGS: usize = 8;

pub const SESSION: usize = 44;

pub const EVENT: usize = 6;

// The layout of stored numbers, which a session begins with.
pub const LAYOUT: u64 = 101;

// Where the sections of a session begin.
pub const SETTINGS_AT: usize = 1;

pub const CLOCK_AT: usize = 9;

pub const LIVE_AT: usize = 14;

pub const RECKONING_AT: usize = 17;

pub const TAPE_AT: usize = 20;

// Ten numbers of a slice, as an array.
pub fn ten_at(ns: &[u64], at: usize) -> [u64; 10]
    requires { at + 10 ≤ length ns.now }
    ensures { result ≡ ten_at ns.now at }
{
    *ns[at..].first_chunk().unwrap()
}
