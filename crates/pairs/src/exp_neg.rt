// exp(-y): a series in y over 256, squared eight times; where y's low end is 20 or more, [0, 2,062 trillionths] (request 8).
ghost use Rattle.std.specs.Prelude.{◌≡◌, ◌*◌, ◌≤◌, ◌<◌};
ghost use Rattle.pairs.specs.Rounded.{U};
ghost use Rattle.pairs.specs.Figures.{figures, given};
ghost use Rattle.pairs.specs.Answers.{answers, exp_neg_of};
ghost use Rattle.pairs.specs.Series.{exp_series};
ghost use Rattle.pairs.specs.Private.{exp_from};

use super::answer::{Pair, Refusal};
use super::product::product;
use super::series::{Terms, alternating};
use super::unit::ONE;

// The terms of the series in z: term 0 is 1, and term n+1 is term n times z, over n+1.
#[derive(Clone, Copy)]
struct ExpTerms {
    term: Pair,
    z: Pair,
    ghost term_small: { (term.low ≤ term.high) × (term.high ≤ U) },
    ghost z_small: { (z.low ≤ z.high) × (z.high ≤ U) },
}

impl Terms for ExpTerms {
    ghost to_come = { λ s n k. exp_from s.term s.z n k };

    #[tactic(auto, unfolding(crate::specs::Private::exp_from), using(crate::proofs::Turns::exp_from_next))]
    fn next(&mut self, n: u64) -> Pair {
        let term = self.term;
        self.term = term.small_product(self.z).divided_by(n + 1);
        term
    }
}

// The series for a y below 256, squared eight times. Not inlined: as part of exp_neg it makes the cold pair take 5.9 ns and not 3.7.
#[inline(never)]
fn by_series(y: Pair) -> Result<Pair, Refusal>
    requires { (y.low ≤ y.high) × (y.high < 256 * U) }
    ensures { figures result ≡ exp_series answers (given y) }
{
    let mut power = alternating(ExpTerms {
        term: ONE,
        z: y.divided_by(256),
    });
    for _ in 0..8u64 {
        power = product(power, power)?;
    }
    Ok(power)
}

// exp(-y), y below 256.
#[tactic(auto, using(crate::proofs::Refusals::exp_61, crate::proofs::Refusals::exp_63, crate::proofs::Refusals::exp_cold, crate::proofs::Refusals::exp_below_20))]
pub fn exp_neg(y: Pair) -> Result<Pair, Refusal>
    ensures { figures result ≡ exp_neg_of y }
{
    y.admit()?;
    if 256_000_000_000_000 <= y.high {
        return Err(Refusal::OutOfSpan);
    }
    if 20_000_000_000_000 <= y.low {
        return Ok(Pair {
            low: 0,
            high: 2_062,
        });
    }
    by_series(y)
}
