// The fifth root of a pair. A guess by Newton's steps narrows the bracket, and nothing is claimed of it; exact tests of the rounded
// fifth power decide.
ghost use Rattle.std.specs.Prelude.{◌≡◌, ◌*◌, ◌-◌, ◌^◌, ◌≤◌, ◌<◌, ltb};
ghost use Rattle.pairs.specs.Rounded.{U, fifth_root_down, fifth_root_up};
ghost use Rattle.pairs.specs.Figures.{figures};
ghost use Rattle.pairs.specs.Answers.{fifth_root_of};
ghost use Rattle.pairs.specs.Private.{fourth_power, Brackets};

use super::answer::{Pair, Refusal};
use super::division::checked_divided;
use super::product::{Rounding, rounded_product};
use super::unit::in_trillionths;

// The fifth power of this number of trillionths is above 2^64 - 1.
const LIMIT: u64 = 28_391_212_775_636;

// s·s·s·s.
#[tactic(auto, unfolding(crate::specs::Private::fourth_power), using(crate::proofs::fifth_root::Powers::square_le, crate::proofs::fifth_root::Powers::cube_le, crate::proofs::fifth_root::Powers::fourth_le))]
fn fourth_power(s: u64, rounding: Rounding) -> u64
    requires { s ≤ 28_391_212_775_636 }
    ensures { result ≡ fourth_power rounding s }
{
    let square = rounded_product(s, s, rounding);
    let cube = rounded_product(square, s, rounding);
    rounded_product(cube, s, rounding)
}

// Near the fifth root of a word whose five upper bits are not all 0.
fn near_fifth_root(word: u64) -> u64
    ensures { result < 2 ^ 16 }
{
    let mut s: u64 = 5_500;
    for _ in 0..4u64 {
        let square = s * s;
        s = ((4 * s + word / (square * square)) / 5).clamp(3_000, 8_000);
    }
    s
}

// One of Newton's steps towards the fifth root of x. A trial is a bare number; a type of its bound would be unwrapped at each step.
fn nearer(s: u64, x: u64) -> u64
    requires { s ≤ 28_391_212_775_636 }
    ensures { result ≤ 28_391_212_775_636 }
{
    let power = fourth_power(s, Rounding::Down);
    let Some(part) = checked_divided(in_trillionths(x), power) else {
        return s;
    };
    if 4 * LIMIT < part {
        return s;
    }
    ((4 * s + part) / 5).min(LIMIT)
}

// Near the fifth root of x trillionths: 3,981,071,706 trillionths is near that of one.
fn guess(x: u64) -> u64
    requires { 0 < x }
    ensures { result ≤ 28_391_212_775_636 }
{
    let fifths = x.leading_zeros() / 5;
    let s = near_fifth_root(x << (5 * fifths)) * 3_981_071_706 >> fifths;
    if LIMIT < s {
        return LIMIT;
    }
    nearer(nearer(s, x), x)
}

// Two numbers, the fifth power of the lower, before its last division by U, at most a bound, and that of the upper above it.
#[derive(Clone, Copy)]
struct Bracket {
    lower: u64,
    upper: u64,
    bound: u128,
    rounding: Rounding,
    ghost brackets: { Brackets rounding bound lower upper },
}

impl Bracket {
    // The bracket of all numbers.
    #[tactic(auto, using(crate::proofs::fifth_root::Powers::all_numbers))]
    fn all(bound: u128, rounding: Rounding) -> Bracket
        requires { bound < 2 ^ 64 * U }
        ensures { (result.bound ≡ bound) × (result.rounding ≡ rounding) }
    {
        Bracket {
            lower: 0,
            upper: LIMIT,
            bound,
            rounding,
        }
    }

    // The part of the bracket below or above `at`.
    fn narrowed(self, at: u64) -> Bracket
        ensures same { (result.bound ≡ self.bound) × (result.rounding ≡ self.rounding) }
        ensures narrower { self.lower < at → at < self.upper → result.upper - result.lower < self.upper - self.lower }
    {
        if at <= self.lower || self.upper <= at {
            return self;
        }
        if self.bound < u128::from(fourth_power(at, self.rounding)) * u128::from(at) {
            return Bracket {
                lower: self.lower,
                upper: at,
                bound: self.bound,
                rounding: self.rounding,
            };
        }
        Bracket {
            lower: at,
            upper: self.upper,
            bound: self.bound,
            rounding: self.rounding,
        }
    }
}

// The first number whose fifth power, before its last division by U, is above the bound; x trillionths is near the bound.
fn first_above(x: u64, bound: u128, rounding: Rounding) -> u64
    requires { (0 < x) × (bound < 2 ^ 64 * U) }
    ensures { Brackets rounding bound (result - 1) result }
{
    let near = guess(x);
    let span = near / x + 4;
    let mut b = Bracket::all(bound, rounding)
        .narrowed(near + span)
        .narrowed(near.saturating_sub(span));
    while 1 < b.upper - b.lower {
        b = b.narrowed(b.lower + (b.upper - b.lower) / 2);
    }
    b.upper
}

// The greatest s whose fifth power, each product rounded up, is at most a. This and the next share `first_above`; they differ in bound,
// rounding and what is taken off.
#[tactic(auto, using(crate::proofs::fifth_root::Powers::named_down, crate::proofs::fifth_root::Powers::down_of_zero))]
fn fifth_root_down_of(a: u64) -> u64
    ensures { result ≡ fifth_root_down a }
{
    if a == 0 {
        return 0;
    }
    first_above(a, in_trillionths(a), Rounding::Up) - 1
}

// The least s whose fifth power, each product rounded down, is at least b.
#[tactic(auto, using(crate::proofs::fifth_root::Powers::up_of_zero))]
fn fifth_root_up_of(b: u64) -> u64
    ensures { result ≡ fifth_root_up b }
{
    if b == 0 {
        return 0;
    }
    first_above(b, in_trillionths(b) - 1, Rounding::Down)
}

// [fifth root of a down, fifth root of b up].
#[tactic(auto, unfolding(crate::specs::Rounded::fifth_root, crate::specs::Answers::fifth_root_of, crate::specs::Answers::fitting))]
pub fn fifth_root(p: Pair) -> Result<Pair, Refusal>
    ensures { figures result ≡ fifth_root_of p }
{
    p.admit()?;
    Ok(Pair {
        low: fifth_root_down_of(p.low),
        high: fifth_root_up_of(p.high),
    })
}
