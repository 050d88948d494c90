// Runs of numbers moved and written, at any place of a slice.
ghost use Rattle.std.specs.Prelude.{◌≡◌, [], ◌∷◌, ◌+◌, ◌≤◌, length, take, drop, replicate};
ghost use Rattle.tables.specs.Put.{put};

// Moves t[from..from + count] to t[to..].
pub fn shift(t: &mut [u64], to: usize, from: usize, count: usize)
    requires { (from + count ≤ length t.old) × (to + count ≤ length t.old) }
    ensures { t.new ≡ put t.old to (take count (drop from t.old)) }
{
    t.copy_within(from..from + count, to);
}

// Writes numbers to the front of a slice; what lies past them is as it was.
pub fn lay(run: &mut [u64], ns: &[u64])
    requires { length ns.now ≤ length run.old }
    ensures { run.new ≡ put run.old 0 ns.now }
{
    // No copy_from_slice: where an app lends both (the C interface) it becomes a memmove, and kakoludar.h asks for memcpy and memset alone.
    for j in 0..ns.len() {
        run[j] = ns[j];
    }
}

pub fn clear(t: &mut [u64], at: usize, count: usize)
    requires { at + count ≤ length t.old }
    ensures { t.new ≡ put t.old at (replicate count 0) }
{
    t[at..at + count].fill(0);
}

// Writes three numbers from `at` on.
pub fn store3(t: &mut [u64], at: usize, a: u64, b: u64, c: u64)
    requires { at + 3 ≤ length t.old }
    ensures { t.new ≡ put t.old at (a ∷ b ∷ c ∷ []) }
{
    t[at] = a;
    t[at + 1] = b;
    t[at + 2] = c;
}
