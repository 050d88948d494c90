// The view of a side.
ghost use Rattle.std.specs.Prelude.{◌≡◌};
ghost use Rattle.engine_law.specs.Calls.{view_call};

use state_law::Session;
use tables::lengths;
use terms::Side;

// The live part of the named side's table; for a session that is not sound, or a short table, the empty part.
pub fn view<'a>(side: Side, s: Session, buys: &'a [u64], sells: &'a [u64]) -> &'a [u64]
    ensures { result.now ≡ view_call side s buys.now sells.now }
{
    if buys.len() < lengths::TABLE {
        return &buys[0..0];
    }
    if sells.len() < lengths::TABLE {
        return &sells[0..0];
    }
    if !soundness::is_sound(s, buys, sells) {
        return &buys[0..0];
    }
    let buying = s.live.buys as usize;
    let selling = s.live.sells as usize;
    book::view::view(side, buys, sells, buying, selling)
}
