// stream_source: where a run's bytes come from: a descriptor, or a text that is lent.
// It may use descriptors and the definitions of stream_law. It promises, of any text: a read copies its next bytes, as many as there is room
// for; behind the last it answers the end, or that it failed, as the source says; and where a buffer is filled in many reads, a failure among
// them is answered as one. That a descriptor is read in the same way is one line, in `read_some`, by descriptors::live; what its reads give no contract can say,
// since those of std name no bytes.

#![tactic(auto)]

ghost use Rattle.std.specs.Prelude.{◌<◌, length};
ghost use Rattle.stream_law.specs.declared.Source.{Source};
ghost use Rattle.stream_source.specs.Reads.{CopiedAs, ReadAs, ReadBehind, FilledAs};

use descriptors::live::Live;
use descriptors::{Failed, reading};
use stream_law::Source;

// What a read came to, and where the source stands then.
#[derive(Clone, Copy)]
pub struct Read {
    pub got: Result<usize, Failed>,
    pub from: Source,
}

// ---- a text that is lent

// Copies the next bytes of a text into a buffer, as many as there are and fit. Answers how many.
fn copy(given: &[u8], at: usize, buf: &mut [u8]) -> usize
    ensures { CopiedAs given.now at buf.new result }
{
    if given.len() < at {
        return 0;
    }
    let left = &given[at..];
    let n = left.len().min(buf.len());
    buf[..n].copy_from_slice(&left[..n]);
    n
}

// ---- reads

// Reads the next bytes of a text; behind the last is the end.
fn read_text(given: &[u8], at: usize, buf: &mut [u8]) -> Read
    requires { 0 < length buf.old }
    ensures { ReadAs given.now (Source.Text at) buf.new result }
{
    let n = copy(given, at, buf);
    Read {
        got: Ok(n),
        from: Source::Text(at + n),
    }
}

// The same, where a read behind the last byte fails.
fn read_broken(given: &[u8], at: usize, buf: &mut [u8]) -> Read
    requires { 0 < length buf.old }
    ensures { ReadAs given.now (Source.Broken at) buf.new result }
{
    let n = copy(given, at, buf);
    if n == 0 {
        return Read {
            got: Err(Failed),
            from: Source::Broken(at),
        };
    }
    Read {
        got: Ok(n),
        from: Source::Broken(at + n),
    }
}

// Reads once.
fn read_some(live: &Live, from: Source, given: &[u8], buf: &mut [u8]) -> Read
    requires { 0 < length buf.old }
    ensures { ReadAs given.now from buf.new result }
{
    match from {
        Source::Live(fd) => Read {
            got: reading::read_some(live, fd, buf),
            from,
        },
        Source::Text(at) => read_text(given, at, buf),
        Source::Broken(at) => read_broken(given, at, buf),
    }
}

// Reads once, into the part of the buffer behind what is kept.
pub fn read_behind(live: &Live, from: Source, given: &[u8], have: usize, buf: &mut [u8]) -> Read
    requires { have < length buf.old }
    ensures { ReadBehind given.now from have buf.old buf.new result }
{
    read_some(live, from, given, &mut buf[have..])
}

// Reads until the buffer is full or the source is at its end.
pub fn fill(live: &Live, from: Source, given: &[u8], buf: &mut [u8]) -> Read
    ensures { FilledAs given.now from buf.new result }
{
    let mut at: usize = 0;
    let mut source = from;
    // no `for`: each turn goes on by as many bytes as one read gave
    while at < buf.len() {
        let read = read_behind(live, source, given, at, buf);
        source = read.from;
        match read.got {
            Err(_) => return read,
            Ok(0) => break,
            Ok(n) => at += n,
        }
    }
    Read {
        got: Ok(at),
        from: source,
    }
}
