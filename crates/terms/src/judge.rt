// Whether settings are refused: 12 if a number is out of range, then 13 if a price is off the tick, for any numbers whatever.
ghost use Rattle.std.specs.Prelude.{◌≡◌};
ghost use Rattle.terms.specs.code.Ticks.{factor_of};
ghost use Rattle.terms.specs.Settings.{settings_ranged, settings_ticked, settings_valid, settings_verdict, Ranged};

use crate::{Refusal, Settings, Verdict, numbers, sizes, ticks};

fn ranged(g: Settings) -> bool
    ensures { result ≡ settings_ranged g }
{
    let base = (1 <= g.base) & (g.base <= sizes::BASE);
    let tick = (1 <= g.tick) & (g.tick <= sizes::TICK);
    let length = (sizes::SHORTEST <= g.length) & (g.length <= sizes::TIME);
    let days = g.days <= sizes::DAYS;
    let under = g.under <= sizes::PRICE;
    let close = numbers::is_price(g.close);
    let settle = numbers::is_price(g.settle);
    base & close & settle & tick & length & days & under
}

fn ticked(g: Settings, factor: u64) -> bool
    requires { Ranged g × (factor ≡ factor_of g.tick) }
    ensures { result ≡ settings_ticked g }
{
    let tick = g.tick;
    let base = ticks::on_tick(g.base, tick, factor);
    let close = ticks::on_tick(g.close, tick, factor);
    let settle = ticks::on_tick(g.settle, tick, factor);
    base & close & settle
}

// The first refusal that applies to some settings.
pub fn check(g: Settings) -> Verdict
    ensures { result ≡ settings_verdict g }
{
    if !ranged(g) {
        return Err(Refusal::SettingsRange);
    }
    if !ticked(g, ticks::factor(g.tick)) {
        return Err(Refusal::SettingsOffTick);
    }
    Ok(())
}

// Whether settings are valid, that is, neither refusal applies. `factor` is that of their tick.
pub fn is_valid(g: Settings, factor: u64) -> bool
    requires { factor ≡ factor_of g.tick }
    ensures { result ≡ settings_valid g }
{
    if !ranged(g) {
        return false;
    }
    ticked(g, factor)
}
