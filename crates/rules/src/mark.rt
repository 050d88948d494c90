// The mark of a market order: how far from its first trade it may reach (004, paragraph 6).
ghost use Rattle.std.specs.Prelude.{◌≡◌, ◌≤◌};
ghost use Rattle.rules_law.specs.Mark.{beyond_mark, mark_most};

use terms::Side;

// Whether a price lies beyond the mark of an order whose first trade was at `first`. Any price may be asked about.
pub fn beyond_mark(side: Side, first: u64, x: u64) -> bool
    requires { first ≤ mark_most }
    ensures { result ≡ beyond_mark side first x }
{
    match side {
        Side::Buy => 102 * first / 100 < x,
        Side::Sell => x < (98 * first + 99) / 100,
    }
}
