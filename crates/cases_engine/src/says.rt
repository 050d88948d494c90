// Prints numbers with a space after each, a session, and the sum of a slice.
use cases::print;
use engine_law::Answer;
use state_law::Session;
use terms::Verdict;

pub fn verdict(v: Verdict) {
    match v {
        Ok(()) => print::number(0),
        Err(r) => print::number(u64::from(r)),
    }
}

pub fn answer(a: Answer) {
    match a {
        Ok(count) => {
            print::number(0);
            print::number(count);
        }
        Err(r) => {
            print::number(1);
            print::number(u64::from(r));
        }
    }
}

// Prints every number of a session that an event can change, except the remembered trades.
pub fn session(s: Session) {
    print::number(s.clock.time);
    print::number(u64::from(s.clock.closed));
    print::number(s.live.buys);
    print::number(s.live.sells);
    print::number(s.clock.widened);
    print::number(s.clock.cooling);
    print::number(s.reckoning.reference);
    print::number(s.reckoning.minute.count);
    print::number(s.reckoning.minute.sum);
    print::number(s.clock.under);
    print::number(s.live.given);
    print::number(s.tape.trades);
    print::number(s.tape.half.count);
    print::number(s.tape.half.lots);
    print::number(s.tape.half.value);
}

// Prints a sum over the numbers of a slice and their places: changing one of them by less than 1,000,003 changes the sum.
pub fn sum(t: &[u64]) {
    let mut sum: u64 = 0;
    for x in t {
        sum = (sum % 1_000_003 * 31 + *x % 1_000_003) % 1_000_003;
    }
    print::number(sum);
}
