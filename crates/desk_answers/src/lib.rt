// desk_answers: what a call answers, as one number: a code and a count.
// It may use terms and desk_packing_law. It promises: the number is the definition of desk_packing_law, so code and count can be read from it.

#![tactic(auto)]

ghost use Rattle.std.specs.Prelude.{◌≡◌, ◌≤◌, ◌<◌, Ok, Err};
ghost use Rattle.terms.specs.declared.Refusal.TheVariants.{LineWrong};
ghost use Rattle.terms.specs.Refusals.{number_of};
ghost use Rattle.desk_packing_law.specs.Answers.{codes, count_most, answer_number, answer_of};

use terms::Refusal;

pub const CODES: u64 = 256;

pub fn number(code: u64, count: u64) -> u64
    requires { (code < codes) × (count ≤ count_most) }
    ensures { result ≡ answer_number code count }
{
    code + CODES * count
}

// The answer of a call that did what was asked, with a count.
pub fn done(count: u64) -> u64
    requires { count ≤ count_most }
    ensures { result ≡ answer_of (Ok tt) count }
{
    number(0, count)
}

// The answer of a refused call.
pub fn refused(r: Refusal) -> u64
    ensures { result ≡ answer_of (Err r) 0 }
{
    number(u64::from(r), 0)
}

// The answer 15, with the place.
pub fn wrong_at(place: usize) -> u64
    requires { place ≤ count_most }
    ensures { result ≡ answer_number (number_of LineWrong) place }
{
    number(u64::from(Refusal::LineWrong), place as u64)
}
