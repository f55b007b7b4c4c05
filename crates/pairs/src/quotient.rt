// The quotient of two pairs.
ghost use Rattle.std.specs.Prelude.{◌≡◌};
ghost use Rattle.pairs.specs.Figures.{figures};
ghost use Rattle.pairs.specs.Answers.{quotient_of};

use super::answer::{Pair, Refusal};
use super::division::{checked_divided, divided};
use super::unit::in_trillionths;

// [aU/d down, bU/c up].
#[tactic(auto, unfolding(crate::specs::Answers::quotient_of, crate::specs::Answers::fitting, crate::specs::Rounded::quotient, crate::specs::Rounded::down, crate::specs::Rounded::up), using(crate::proofs::Rounding::word_from, crate::proofs::Rounding::word_below))]
pub fn quotient(p: Pair, q: Pair) -> Result<Pair, Refusal>
    ensures { figures result ≡ quotient_of p q }
{
    p.admit()?;
    q.admit()?;
    if q.low == 0 {
        return Err(Refusal::ZeroDivisor);
    }
    // rounded down by c, this is bU/c rounded up
    let raised = in_trillionths(p.high) + u128::from(q.low - 1);
    let high = checked_divided(raised, q.low).ok_or(Refusal::TooLarge)?;
    Ok(Pair {
        low: divided(in_trillionths(p.low), q.high),
        high,
    })
}
