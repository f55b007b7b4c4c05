// pi and ln 10, which never change.
ghost use Rattle.std.specs.Prelude.{◌≡◌};
ghost use Rattle.pairs.specs.Figures.{given};
ghost use Rattle.pairs.specs.Answers as answers;

use super::answer::Pair;

// 16·arc(1/5) - 4·arc(1/239).
pub fn pi() -> Pair
    ensures { given result ≡ answers.pi }
{
    Pair {
        low: 3_141_592_653_444,
        high: 3_141_592_653_752,
    }
}

// 6·H(1/3) + 2·H(1/9).
pub fn ln_ten() -> Pair
    ensures { given result ≡ answers.ln_ten }
{
    Pair {
        low: 2_302_585_092_956,
        high: 2_302_585_093_092,
    }
}
