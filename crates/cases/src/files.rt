// The files of a case, by its name.
ghost use Rattle.std.specs.Prelude.{◌+◌, ◌≤◌, ◌≡◌, ◌↔◌, length, take, drop, IsSome, IfSome};

use descriptors::Failed;
use descriptors::live::Live;

// Puts an ending behind the first n bytes of a path. Answers how many bytes it has then, if they fit.
pub fn end_with(path: &mut [u8], n: usize, ending: &[u8]) -> Option<usize>
    ensures fits { IsSome result ↔ (n + length ending.now ≤ length path.old) }
    ensures ends { IfSome result (λ end. end ≡ n + length ending.now) }
    ensures there { IfSome result (λ _. take (length ending.now) (drop n path.new) ≡ ending.now) }
    ensures kept { take n path.new ≡ take n path.old }
    ensures same { length path.new ≡ length path.old }
{
    if path.len() < n || path.len() - n < ending.len() {
        return None;
    }
    let end = n + ending.len();
    path[n..end].copy_from_slice(ending);
    Some(end)
}

// Opens a file of a case: its name is the first n bytes of a path, followed by an ending.
pub fn open_file(
    rt: &HostRuntime,
    live: &mut Live,
    path: &mut [u8],
    n: usize,
    ending: &[u8],
) -> Result<i32, Failed> {
    let end = end_with(path, n, ending).ok_or(Failed)?;
    live.open_read(rt, &path[..end])
}
