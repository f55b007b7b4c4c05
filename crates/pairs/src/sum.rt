// The sum of two pairs.
ghost use Rattle.std.specs.Prelude.{◌≡◌, ◌+◌, ◌^◌, ◌≤◌, ◌<◌};
ghost use Rattle.pairs.specs.Rounded as rounded;
ghost use Rattle.pairs.specs.Figures.{figures};
ghost use Rattle.pairs.specs.Answers.{sum_of};

use super::answer::{Pair, Refusal};

impl Pair {
    // The sum, where it fits; `sum` below tests that.
    #[tactic(auto, unfolding(crate::specs::Rounded::sum))]
    pub(crate) fn plus(self, q: Pair) -> Pair
        requires { (self.low ≤ self.high) × (q.low ≤ q.high) × (self.high + q.high < 2 ^ 64) }
        ensures { result ≡ rounded.sum self q }
    {
        Pair {
            low: self.low + q.low,
            high: self.high + q.high,
        }
    }
}

// [a+c, b+d].
#[tactic(auto, unfolding(crate::specs::Answers::sum_of, crate::specs::Answers::fitting, crate::specs::Rounded::sum))]
pub fn sum(p: Pair, q: Pair) -> Result<Pair, Refusal>
    ensures { figures result ≡ sum_of p q }
{
    p.admit()?;
    q.admit()?;
    let high = p.high.checked_add(q.high).ok_or(Refusal::TooLarge)?;
    Ok(Pair {
        low: p.low + q.low,
        high,
    })
}
