// A pair times a whole number.
ghost use Rattle.std.specs.Prelude.{◌≡◌};
ghost use Rattle.pairs.specs.Figures.{figures};
ghost use Rattle.pairs.specs.Answers.{times_of};

use super::answer::{Pair, Refusal};

// [a·n, b·n], exact.
#[tactic(auto, unfolding(crate::specs::Answers::times_of, crate::specs::Answers::fitting, crate::specs::Rounded::times), using(crate::proofs::Rounding::multiple_le))]
pub fn times(p: Pair, n: u64) -> Result<Pair, Refusal>
    ensures { figures result ≡ times_of p n }
{
    p.admit()?;
    let high = p.high.checked_mul(n).ok_or(Refusal::TooLarge)?;
    Ok(Pair {
        low: p.low * n,
        high,
    })
}
