// A pair over a whole number.
ghost use Rattle.std.specs.Prelude.{◌≡◌, ◌≤◌, ◌<◌};
ghost use Rattle.pairs.specs.Rounded as rounded;
ghost use Rattle.pairs.specs.Figures.{figures};
ghost use Rattle.pairs.specs.Answers.{over_of};

use super::answer::{Pair, Refusal};

impl Pair {
    // The pair over n, which is not 0.
    #[tactic(auto, unfolding(crate::specs::Rounded::over, crate::specs::Rounded::down), using(crate::proofs::Rounding::up_of_ceil, crate::proofs::Turns::over_small))]
    pub(crate) fn divided_by(self, n: u64) -> Pair
        requires { 0 < n }
        ensures is { result ≡ rounded.over self n }
        ensures no_higher { result.high ≤ self.high }
        ensures ordered { self.low ≤ self.high → result.low ≤ result.high }
    {
        Pair {
            low: self.low / n,
            high: self.high.div_ceil(n),
        }
    }
}

// [a/n down, b/n up].
#[tactic(auto, unfolding(crate::specs::Answers::over_of, crate::specs::Answers::fitting, crate::specs::Rounded::over), using(crate::proofs::Rounding::up_le))]
pub fn over(p: Pair, n: u64) -> Result<Pair, Refusal>
    ensures { figures result ≡ over_of p n }
{
    p.admit()?;
    if n == 0 {
        return Err(Refusal::ZeroDivisor);
    }
    Ok(p.divided_by(n))
}
