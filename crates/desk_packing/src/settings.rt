// Settings written as eight numbers, and read from them.
ghost use Rattle.std.specs.Prelude.{◌≡◌, ◌+◌, ◌≤◌, length};
ghost use Rattle.desk_packing_law.specs.Runs.{settings_length};
ghost use Rattle.desk_packing_law.specs.Settings.{settings_numbers, is_category, category_from, settings_at, settings_from};

use terms::{Category, Settings};

// Whether a number is the row of a category.
pub fn is_category(n: u64) -> bool
    ensures { result ≡ is_category n }
{
    n <= 7
}

// The category of a row; a number that is none's is taken for the last.
fn category_from(n: u64) -> Category
    ensures { result ≡ category_from n }
{
    match n {
        0 => Category::Broad,
        1 => Category::Narrow,
        2 => Category::Sensitive,
        3 => Category::Energy,
        4 => Category::Metals,
        5 => Category::Precious,
        6 => Category::Gems,
        _ => Category::Other,
    }
}

// The settings that numbers stand for, from a place on.
pub fn settings_at(ns: &[u64], at: usize) -> Settings
    requires { at + settings_length ≤ length ns.now }
    ensures { result ≡ settings_at ns.now at }
{
    Settings {
        category: category_from(ns[at]),
        base: ns[at + 1],
        close: ns[at + 2],
        settle: ns[at + 3],
        tick: ns[at + 4],
        length: ns[at + 5],
        days: ns[at + 6],
        under: ns[at + 7],
    }
}

// The settings that numbers stand for.
pub fn unpack(ns: &[u64]) -> Settings
    requires { settings_length ≤ length ns.now }
    ensures { result ≡ settings_from ns.now }
{
    settings_at(ns, 0)
}

// The numbers of settings.
pub fn pack(g: Settings) -> [u64; 8]
    ensures { result ≡ settings_numbers g }
{
    let row = u64::from(g.category);
    [
        row, g.base, g.close, g.settle, g.tick, g.length, g.days, g.under,
    ]
}
