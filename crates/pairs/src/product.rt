// The product of two pairs. With a = a1·U + a0 and c = c1·U + c0, a·c/U is a1·c1·U + a1·c0 + a0·c1 + a0·c0/U, and the last
// part goes by base 10^6, so that no number has two words. With the processor's own division of two words a product takes 61 ns and not 10.
ghost use Rattle.std.specs.Prelude.{◌≡◌, ◌*◌, ◌^◌, ◌≤◌, ◌<◌, MatchOption};
ghost use Rattle.pairs.specs.Rounded as rounded;
ghost use Rattle.pairs.specs.Rounded.{U};
ghost use Rattle.pairs.specs.Figures.{figures};
ghost use Rattle.pairs.specs.Answers.{product_of};
ghost use Rattle.pairs.specs.Private.{extra_of, carried};

use super::answer::{Pair, Refusal};
use super::unit::UNIT;

// How an end is rounded, by what is added before each of two divisions by 10^6.
#[derive(Clone, Copy)]
pub(crate) enum Rounding {
    Down = 0,
    Up = 999_999,
}

impl Rounding {
    fn extra(self) -> u64
        ensures { result ≡ extra_of self }
    {
        self as u64
    }
}

// a·c/U, for numbers of at most 1.
#[tactic(auto, using(crate::proofs::product::Parts::fraction_is))]
pub(crate) fn fraction(a: u64, c: u64, rounding: Rounding) -> u64
    requires { (a ≤ U) × (c ≤ U) }
    ensures { result ≡ carried rounding (a * c) }
{
    let extra = rounding.extra();
    (a * (c / 1_000_000) + (a * (c % 1_000_000) + extra) / 1_000_000 + extra) / 1_000_000
}

impl Pair {
    // The product of two numbers of at most 1. A type of such pairs would be unwrapped for its ends and wrapped again at each product.
    #[tactic(auto, unfolding(crate::specs::Rounded::product), using(crate::proofs::Turns::product_small))]
    pub(crate) fn small_product(self, q: Pair) -> Pair
        requires { (self.low ≤ self.high) × (self.high ≤ U) × (q.low ≤ q.high) × (q.high ≤ U) }
        ensures is { result ≡ rounded.product self q }
        ensures small { (result.low ≤ result.high) × (result.high ≤ U) }
    {
        Pair {
            low: fraction(self.low, q.low, Rounding::Down),
            high: fraction(self.high, q.high, Rounding::Up),
        }
    }
}

// a·c/U, where it fits.
#[tactic(auto, using(crate::proofs::product::Parts::parts))]
pub(crate) fn rounded_product(a: u64, c: u64, rounding: Rounding) -> u64
    requires { carried rounding (a * c) < 2 ^ 64 }
    ensures { result ≡ carried rounding (a * c) }
{
    let a1 = a / UNIT;
    let a0 = a % UNIT;
    let c1 = c / UNIT;
    let c0 = c % UNIT;
    a1 * c1 * UNIT + a1 * c0 + a0 * c1 + fraction(a0, c0, rounding)
}

// a·c/U, or none where it does not fit: each step tested, where `rounded_product` asks that all fit.
#[tactic(auto, using(crate::proofs::product::Parts::parts))]
fn checked_product(a: u64, c: u64, rounding: Rounding) -> Option<u64>
    ensures { MatchOption result (2 ^ 64 ≤ carried rounding (a * c)) (λ n. n ≡ carried rounding (a * c)) }
{
    let a1 = a / UNIT;
    let a0 = a % UNIT;
    let c1 = c / UNIT;
    let c0 = c % UNIT;
    (a1 * c1)
        .checked_mul(UNIT)?
        .checked_add(a1 * c0)?
        .checked_add(a0 * c1)?
        .checked_add(fraction(a0, c0, rounding))
}

// [ac/U down, bd/U up].
#[tactic(auto, unfolding(crate::specs::Answers::product_of, crate::specs::Answers::fitting, crate::specs::Rounded::product), using(crate::proofs::product::Parts::low_fits))]
pub fn product(p: Pair, q: Pair) -> Result<Pair, Refusal>
    ensures { figures result ≡ product_of p q }
{
    p.admit()?;
    q.admit()?;
    let high = checked_product(p.high, q.high, Rounding::Up).ok_or(Refusal::TooLarge)?;
    Ok(Pair {
        low: rounded_product(p.low, q.low, Rounding::Down),
        high,
    })
}
