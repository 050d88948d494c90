// Reads bytes from a descriptor.
ghost use Rattle.std.specs.Prelude.{length};
ghost use Rattle.descriptors.specs.Counted.{GotWithin, LoadWithin};

use crate::live::Live;
use crate::{Failed, LoadError, calls};

// Reads once, as soon as there is something to read.
pub fn read_some(live: &Live, fd: i32, buf: &mut [u8]) -> Result<usize, Failed>
    ensures { GotWithin (length buf.old) result }
{
    let most = buf.len();
    calls::got_of(calls::settled(|| live.read(fd, buf), most))
}

// Reads to the end of the input. An input that fills the buffer counts as too long, since its end was not seen.
pub fn read_whole(live: &Live, fd: i32, buf: &mut [u8]) -> Result<usize, LoadError>
    ensures { LoadWithin (length buf.old) result }
{
    let mut at: usize = 0;
    // no `for`: each turn goes on by as many bytes as one read gave
    while at < buf.len() {
        let n = read_some(live, fd, &mut buf[at..])?;
        if n == 0 {
            return Ok(at);
        }
        at += n;
    }
    Err(LoadError::TooLong)
}
