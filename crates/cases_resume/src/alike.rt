// Compares numbers.
ghost use Rattle.std.specs.Prelude.{true, ◌≡◌};
ghost use Rattle.cases_resume.specs.Left.{AllAre};

// Whether every number is x.
pub fn all_are(t: &[u64], x: u64) -> bool
    ensures { result ≡ true → AllAre x t.now }
{
    t.iter().all(|y| *y == x)
}

// Whether two slices hold the same numbers.
pub fn alike(a: &[u64], b: &[u64]) -> bool
    ensures { result ≡ true → a.now ≡ b.now }
{
    a == b
}
