// The arc tangent's series.
ghost use Rattle.std.specs.Prelude.{◌≡◌};
ghost use Rattle.pairs.specs.Figures.{figures};
ghost use Rattle.pairs.specs.Answers.{arc_of};

use super::answer::{Pair, Refusal};
use super::series::{ArcTerms, alternating};
use super::unit::UNIT;

// arc(t), t at most 1.
#[tactic(auto, using(crate::proofs::Refusals::arc_61, crate::proofs::Refusals::arc_63))]
pub fn arc(t: Pair) -> Result<Pair, Refusal>
    ensures { figures result ≡ arc_of t }
{
    t.admit()?;
    if UNIT < t.high {
        return Err(Refusal::OutOfSpan);
    }
    Ok(alternating(ArcTerms::of(t)))
}
