// H: the arc's terms, all plus.
ghost use Rattle.std.specs.Prelude.{◌≡◌, ◌≤◌};
ghost use Rattle.pairs.specs.Rounded as rounded;
ghost use Rattle.pairs.specs.Figures.{figures};
ghost use Rattle.pairs.specs.Answers.{h_series_of};
ghost use Rattle.pairs.specs.Series as series;

use super::answer::{Pair, Refusal};
use super::series::ArcTerms;
use super::unit::ZERO;

// The high end of 1/3.
const A_THIRD: u64 = 333_333_333_334;

// 16 terms, and the whole seventeenth power for the high end.
fn total_of_terms(t: Pair) -> Pair
    requires { (t.low ≤ t.high) × (t.high ≤ 333_333_333_334) }
    ensures { result ≡ series.h_series rounded.rounded t }
{
    let mut terms = ArcTerms::of(t);
    let mut sum = ZERO;
    for n in 0..16u64 {
        sum = sum.plus(terms.term(n));
    }
    Pair {
        low: sum.low,
        high: sum.high + terms.power.high,
    }
}

// H(t), t at most 1/3.
#[tactic(auto, using(crate::proofs::Refusals::h_61, crate::proofs::Refusals::h_63))]
pub fn h_series(t: Pair) -> Result<Pair, Refusal>
    ensures { figures result ≡ h_series_of t }
{
    t.admit()?;
    if A_THIRD < t.high {
        return Err(Refusal::OutOfSpan);
    }
    Ok(total_of_terms(t))
}
