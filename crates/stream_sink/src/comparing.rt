// Holds bytes against an expected text, of which the first `at` bytes were met.
ghost use Rattle.std.specs.Prelude.{◌≡◌, [], ◌∷◌, length, drop};
ghost use Rattle.stream_law.specs.Sinks.{begins, matched, passed};

use stream_law::Sink;

// Whether some bytes come next in an expected text.
fn is_next(expected: &[u8], at: usize, bytes: &[u8]) -> bool
    ensures { result ≡ begins bytes.now (drop at expected.now) }
{
    if expected.len() < at {
        return bytes.is_empty();
    }
    expected[at..].starts_with(bytes)
}

// Holds some bytes against an expected text.
pub fn hold(expected: &[u8], at: usize, bytes: &[u8]) -> Sink
    ensures { result ≡ matched expected.now at bytes.now }
{
    if is_next(expected, at, bytes) {
        return Sink::Match(at + bytes.len());
    }
    Sink::Differs
}

// Holds one byte against an expected text.
pub fn hold_byte(expected: &[u8], at: usize, byte: u8) -> Sink
    ensures { result ≡ matched expected.now at (byte ∷ []) }
{
    hold(expected, at, &[byte])
}

// How many bytes of an expected text are left to meet.
fn left(expected: &[u8], at: usize) -> usize
    ensures { result ≡ length (drop at expected.now) }
{
    expected.len().saturating_sub(at)
}

// Passes over as many bytes of an expected text.
pub fn pass(expected: &[u8], at: usize, count: usize) -> Sink
    ensures { result ≡ passed expected.now at count }
{
    if count <= left(expected, at) {
        return Sink::Match(at + count);
    }
    Sink::Differs
}
