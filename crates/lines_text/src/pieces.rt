// The pieces of a line are read here: a byte, a word, a number, a word and a number, and the last field.
ghost use Rattle.std.specs.Prelude.{◌≡◌, ◌<◌, length, drop, OnOk};
ghost use Rattle.lines_text_law.specs.code.Pieces.{byte_on, word_on, number_on, field_on, last_on};

use lines_text_law::{LineError, Parsed};

// The byte at a place.
pub fn byte(s: &[u8], at: usize) -> Result<u8, LineError>
    ensures value { result ≡ byte_on (drop at s.now) }
    ensures within { OnOk result (at < length s.now) }
{
    s.get(at).copied().ok_or(LineError::Unfinished)
}

// Reads a word, and answers the place after it.
pub fn word(s: &[u8], at: usize, w: &[u8]) -> Result<usize, LineError>
    ensures { result ≡ word_on w.now (drop at s.now) at }
{
    let mut next = at;
    for &b in w {
        if byte(s, next)? != b {
            return Err(LineError::Wrong(next));
        }
        next += 1;
    }
    Ok(next)
}

// Reads a numeral: 0, or a digit from 1 and up to eight more. What follows it is judged by the next word.
pub fn number(s: &[u8], at: usize) -> Result<Parsed<u64>, LineError>
    ensures { result ≡ number_on (drop at s.now) at }
{
    let first = byte(s, at)?;
    let mut next = at + 1;
    if first == b'0' {
        return Ok(Parsed { value: 0, next });
    }
    if !first.is_ascii_digit() {
        return Err(LineError::Wrong(at));
    }
    let mut value = u64::from(first - b'0');
    let rest = &s[next..];
    let most = rest.len().min(8);
    for &d in &rest[..most] {
        if !d.is_ascii_digit() {
            return Ok(Parsed { value, next });
        }
        value = value * 10 + u64::from(d - b'0');
        next += 1;
    }
    Ok(Parsed { value, next })
}

// Reads a word and the number after it.
#[tactic(auto, unfolding(lines_text_law::specs::code::Pieces::field_on))]
pub fn field(s: &[u8], at: usize, w: &[u8]) -> Result<Parsed<u64>, LineError>
    ensures { result ≡ field_on w.now s.now at }
{
    let next = word(s, at, w)?;
    number(s, next)
}

// Reads a word, a number and the line's end.
#[tactic(auto, unfolding(lines_text_law::specs::code::Pieces::last_on))]
pub fn last(s: &[u8], at: usize, w: &[u8]) -> Result<Parsed<u64>, LineError>
    ensures { result ≡ last_on w.now s.now at }
{
    let read = field(s, at, w)?;
    let next = word(s, read.next, b"\n")?;
    Ok(Parsed {
        value: read.value,
        next,
    })
}
