// Whether a price is a multiple of the tick, found by a multiplication and a shift, since a division would take longest.
ghost use Rattle.std.specs.Prelude.{◌≡◌, ◌<◌};
ghost use Rattle.terms.specs.Numbers.{on_tick};
ghost use Rattle.terms.specs.code.Ticks.{scale, factor_of, Dividing};

const SCALE: u64 = 4_294_967_296;

// The greatest 32-bit number, so that the division is a short one.
const BELOW: u64 = 4_294_967_295;

// For a multiple of the tick, price×factor÷SCALE is price÷tick. The factor is computed once a call.
pub fn factor(tick: u64) -> u64
    ensures { result ≡ factor_of tick }
{
    if tick == 0 {
        return 1;
    }
    BELOW / tick + 1
}

pub fn on_tick(price: u64, tick: u64, factor: u64) -> bool
    requires { (price < scale) × Dividing tick factor }
    ensures { result ≡ on_tick tick price }
{
    let wide = price * factor;
    let times = wide / SCALE;
    let back = times * tick;
    back == price
}
