// The arc tangent: the angle halved twice, the arc, times 4.
ghost use Rattle.std.specs.Prelude.{◌≡◌};
ghost use Rattle.pairs.specs.Figures.{figures, given};
ghost use Rattle.pairs.specs.Answers.{answers, atan_of};
ghost use Rattle.pairs.specs.Series as series;

use super::answer::{Pair, Refusal};
use super::arc::arc;
use super::product::product;
use super::quotient::quotient;
use super::root::root;
use super::sum::sum;
use super::times::times;
use super::unit::ONE;

// t/(1+root(1+t·t)).
#[tactic(auto, unfolding(crate::specs::Series::half_angle, crate::specs::Answers::product, crate::specs::Answers::sum, crate::specs::Answers::root, crate::specs::Answers::quotient, crate::specs::Answers::constant, crate::specs::Answers::fitting, crate::specs::Rounded::constant))]
fn half_angle(t: Pair) -> Result<Pair, Refusal>
    ensures { figures result ≡ series.half_angle answers (given t) }
{
    let hypotenuse = root(sum(ONE, product(t, t)?)?)?;
    quotient(t, sum(ONE, hypotenuse)?)
}

#[tactic(auto, unfolding(crate::specs::Series::atan, crate::specs::Answers::times), using(crate::proofs::Refusals::arc_refused, crate::proofs::Refusals::half_angle_refused))]
pub fn atan(t: Pair) -> Result<Pair, Refusal>
    ensures { figures result ≡ atan_of t }
{
    let once = half_angle(t)?;
    let twice = half_angle(once)?;
    times(arc(twice)?, 4)
}
