// The sums of a series' terms. Each term is at most 1, so every sum is at most some tens, and no step is refused.
ghost use Rattle.std.specs.Prelude.{◌≡◌, ℕ, ◌+◌, ◌*◌, ◌≤◌};
ghost use Rattle.pairs.specs.declared.answer.Pair.{Pair};
ghost use Rattle.pairs.specs.Rounded as rounded;
ghost use Rattle.pairs.specs.Rounded.{U};
ghost use Rattle.pairs.specs.Private.{power_from};
ghost use Rattle.pairs.specs.Series as series;

use super::answer::Pair;
use super::unit::ZERO;

// The terms of a series, one after another, each at most 1.
pub(crate) trait Terms: Drop {
    // The terms to come, where the next is term n.
    ghost to_come: { Self → ℕ → ℕ → Pair };

    // Term n.
    fn next(&mut self, n: u64) -> Pair
        requires { n ≤ 16 }
        ensures first { result ≡ to_come self.old n 0 }
        ensures small { (result.low ≤ result.high) × (result.high ≤ U) }
        ensures later { (k : ℕ) → to_come self.new (n + 1) k ≡ to_come self.old n (k + 1) };
}

// 16 terms with signs that alternate from plus, and the seventeenth for the high end.
pub(crate) fn alternating<T: Terms>(mut terms: T) -> Pair
    ensures { result ≡ series.alternating rounded.rounded (T.to_come terms 0) }
{
    // the sum that the next term joins, and the other: they change places at each term
    let mut sum = ZERO;
    let mut other = ZERO;
    for n in 0..16u64 {
        let more = sum.plus(terms.next(n));
        sum = other;
        other = more;
    }
    let last = terms.next(16);
    let plus = Pair {
        low: sum.low,
        high: sum.high + last.high,
    };
    plus.less(other)
}

// The terms of arc and of H: term n is the power that it comes to over 2n+1, and the next power is the last times t·t.
#[derive(Clone, Copy)]
pub(crate) struct ArcTerms {
    pub(crate) power: Pair,
    square: Pair,
    ghost power_small: { (power.low ≤ power.high) × (power.high ≤ U) },
    ghost square_small: { (square.low ≤ square.high) × (square.high ≤ U) },
}

impl ArcTerms {
    pub(crate) fn of(t: Pair) -> ArcTerms
        requires { (t.low ≤ t.high) × (t.high ≤ U) }
        ensures { (result.power ≡ t) × (result.square ≡ rounded.product t t) }
    {
        ArcTerms {
            power: t,
            square: t.small_product(t),
        }
    }

    // Term n.
    pub(crate) fn term(&mut self, n: u64) -> Pair
        requires { n ≤ 16 }
        ensures is { result ≡ rounded.over self.old.power (2 * n + 1) }
        ensures small { (result.low ≤ result.high) × (result.high ≤ U) }
        ensures power { self.new.power ≡ rounded.product self.old.power self.old.square }
        ensures square { self.new.square ≡ self.old.square }
    {
        let term = self.power.divided_by(2 * n + 1);
        self.power = self.power.small_product(self.square);
        term
    }
}

impl Terms for ArcTerms {
    ghost to_come = { λ s n k. rounded.over (power_from s.power s.square k) (2 * (n + k) + 1) };

    #[tactic(auto, unfolding(crate::specs::Private::power_from), using(crate::proofs::Turns::arc_terms_next))]
    fn next(&mut self, n: u64) -> Pair {
        self.term(n)
    }
}
