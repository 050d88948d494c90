// The two files of a case, read and judged.
use crate::{judging, text};
use cases::counts::Ending;
use cases::files;
use descriptors::live::Live;
use descriptors::{Failed, LoadError, reading};

// The room for saved bytes; a file that fills its room counts as unreadable.
const SAVED: usize = 65_536;

// Says of a case whose files were read how it ended.
fn judged(right: bool) -> Ending {
    if right {
        return Ending::Right;
    }
    Ending::Wrong
}

// Reads the saved bytes and the expected answer, and judges what the saved bytes come back as.
fn hold(
    live: &Live,
    saved: Result<i32, Failed>,
    answer: Result<i32, Failed>,
    bytes: &mut [u8],
    room: &mut [u8],
) -> Result<bool, LoadError> {
    let n = reading::read_whole(live, saved?, bytes)?;
    let m = reading::read_whole(live, answer?, room)?;
    Ok(judging::is_right(&bytes[..n], &room[..m]))
}

// Runs the case of two files, with a room for each.
pub fn run(live: &mut Live, saved: Result<i32, Failed>, answer: Result<i32, Failed>) -> Ending {
    let mut bytes = [0u8; SAVED];
    let mut room = [0u8; text::ROOM];
    let told = hold(live, saved, answer, &mut bytes, &mut room);
    live.close_opened(saved);
    live.close_opened(answer);
    told.map_or(Ending::Unread, judged)
}
