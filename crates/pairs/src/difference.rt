// The difference of two pairs.
ghost use Rattle.std.specs.Prelude.{◌≡◌};
ghost use Rattle.pairs.specs.Rounded as rounded;
ghost use Rattle.pairs.specs.Figures.{figures};
ghost use Rattle.pairs.specs.Answers.{difference_of};

use super::answer::{Pair, Refusal};

impl Pair {
    // The difference, of ends in any order.
    #[tactic(auto, unfolding(crate::specs::Rounded::difference))]
    pub(crate) fn less(self, q: Pair) -> Pair
        ensures { result ≡ rounded.difference self q }
    {
        Pair {
            low: self.low.saturating_sub(q.high),
            high: self.high.saturating_sub(q.low),
        }
    }
}

// [a-d, b-c], each end raised to 0 where below it.
#[tactic(auto, unfolding(crate::specs::Answers::difference_of, crate::specs::Answers::fitting, crate::specs::Rounded::difference))]
pub fn difference(p: Pair, q: Pair) -> Result<Pair, Refusal>
    ensures { figures result ≡ difference_of p q }
{
    p.admit()?;
    q.admit()?;
    Ok(p.less(q))
}
