// The reader of settings has a function for each choice, and the grammar has a part of the same name.
ghost use Rattle.std.specs.Prelude.{◌≡◌};
ghost use Rattle.lines_text_law.specs.Reading.{answered};
ghost use Rattle.lines_text_law.specs.code.Pieces.{at as lookAt};
ghost use Rattle.lines_reading_law.specs.Grammars.{last_numbers, later_numbers, category_rest, categories};
ghost use Rattle.lines_reading_law.specs.Answers.{read_settings};

use lines_text::pieces;
use lines_text_law::{LineError, Parsed};
use terms::{Category, Settings};

// Reads the days to maturity and the underlying, which end the line.
#[tactic(auto, using(lines_text_law::proofs::Steps::reading), unfolding(lines_reading_law::specs::Grammars::last_numbers))]
fn last_numbers(
    s: &[u8],
    at: usize,
    category: Category,
    base: u64,
    close: u64,
    settle: u64,
    tick: u64,
    length: u64,
) -> Result<Parsed<Settings>, LineError>
    ensures { answered result ≡ lookAt s.now (last_numbers category base close settle tick length) at }
{
    let days = pieces::field(s, at, b" days=")?;
    let under = pieces::last(s, days.next, b" under=")?;
    let value = Settings {
        category,
        base,
        close,
        settle,
        tick,
        length,
        days: days.value,
        under: under.value,
    };
    Ok(Parsed {
        value,
        next: under.next,
    })
}

// Reads the tick and the length, and then the last two numbers.
#[tactic(auto, using(lines_text_law::proofs::Steps::reading), unfolding(lines_reading_law::specs::Grammars::later_numbers))]
fn later_numbers(
    s: &[u8],
    at: usize,
    category: Category,
    base: u64,
    close: u64,
    settle: u64,
) -> Result<Parsed<Settings>, LineError>
    ensures { answered result ≡ lookAt s.now (later_numbers category base close settle) at }
{
    let tick = pieces::field(s, at, b" tick=")?;
    let length = pieces::field(s, tick.next, b" len=")?;
    last_numbers(
        s,
        length.next,
        category,
        base,
        close,
        settle,
        tick.value,
        length.value,
    )
}

// Reads from behind the first byte of a category on: the rest of its word, and the numbers.
#[tactic(auto, using(lines_text_law::proofs::Steps::reading), unfolding(lines_reading_law::specs::Grammars::category_rest))]
fn category_rest(
    s: &[u8],
    at: usize,
    w: &[u8],
    category: Category,
) -> Result<Parsed<Settings>, LineError>
    ensures { answered result ≡ lookAt s.now (category_rest w.now category) at }
{
    let base = pieces::field(s, at, w)?;
    let close = pieces::field(s, base.next, b" close=")?;
    let settle = pieces::field(s, close.next, b" settle=")?;
    later_numbers(
        s,
        settle.next,
        category,
        base.value,
        close.value,
        settle.value,
    )
}

// Reads from the word after "cat=" on.
#[tactic(auto, using(lines_text_law::proofs::Steps::reading), unfolding(lines_reading_law::specs::Grammars::categories))]
fn categories(s: &[u8], at: usize) -> Result<Parsed<Settings>, LineError>
    ensures { answered result ≡ lookAt s.now categories at }
{
    match pieces::byte(s, at)? {
        b'b' => category_rest(s, at + 1, b"road base=", Category::Broad),
        b'n' => category_rest(s, at + 1, b"arrow base=", Category::Narrow),
        b's' => category_rest(s, at + 1, b"ensitive base=", Category::Sensitive),
        b'e' => category_rest(s, at + 1, b"nergy base=", Category::Energy),
        b'm' => category_rest(s, at + 1, b"etals base=", Category::Metals),
        b'p' => category_rest(s, at + 1, b"recious base=", Category::Precious),
        b'g' => category_rest(s, at + 1, b"ems base=", Category::Gems),
        b'o' => category_rest(s, at + 1, b"ther base=", Category::Other),
        _ => Err(LineError::Wrong(at)),
    }
}

// Reads the settings whose line the bytes start with, by the grammar.
#[tactic(auto, using(lines_text_law::proofs::Steps::reading), unfolding(lines_reading_law::specs::Answers::read_settings, lines_reading_law::specs::Grammars::settings_grammar))]
pub fn read(s: &[u8]) -> Result<Parsed<Settings>, LineError>
    ensures { answered result ≡ read_settings s.now }
{
    let next = pieces::word(s, 0, b"cat=")?;
    categories(s, next)
}
