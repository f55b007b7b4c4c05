// What a step of the chain gives: a pair, or the refusal of the first step that was refused. Its operators are those of pairs, so that the
// steps read as the formulas do. Steps that are shared are worked once and in an order of their own; a refusal is kept until a step asks.
ghost use Rattle.std.specs.Prelude.{◌≡◌, true, MatchResult, Err};
ghost use Rattle.pairs.specs.Rounded.{ends};
ghost use Rattle.pairs.specs.Figures.{given};
ghost use Rattle.pairs.specs.Answers.{answers};
ghost use Rattle.pairs.specs.Series as series;

use pairs::answer::{Pair, Refusal};
use std::marker::Model;
use std::ops::{Add, Div, Mul, Sub};

#[derive(Clone, Copy)]
pub(crate) struct Answer {
    found: Result<Pair, Refusal>,
}

impl Model for Answer {
    ghost use Rattle.pairs.specs.Figures.{Figures, figures};
    ghost use Rattle.pairs.proofs.Lifted.{result_of, result_of_figures};

    ghost Value = { Figures };

    ghost view = { λ a. figures a.found };

    ghost inverse = { λ x. record { found = result_of x } };

    ghost inverse_ok = { λ a h i. record { found = result_of_figures a.found i } };
}

// The operation on both pairs, or the first refusal.
fn on_both<F: FnOnce(Pair, Pair) -> Result<Pair, Refusal>>(
    operation: F,
    a: Result<Pair, Refusal>,
    b: Result<Pair, Refusal>,
) -> Result<Pair, Refusal>
    requires { F.IsAlwaysCallable operation }
    ensures { MatchResult a (λ p. MatchResult b (λ q. F.post operation p q result) (λ e. result ≡ Err e)) (λ e. result ≡ Err e) }
{
    operation(a?, b?)
}

impl Add for Answer {
    type Output = Answer;

    ghost add_gives = { λ a b r. r ≡ answers.sum a b };

    fn add(self, b: Answer) -> Answer {
        let found = on_both(pairs::sum::sum, self.found, b.found);
        Answer { found }
    }
}

impl Sub for Answer {
    type Output = Answer;

    ghost sub_gives = { λ a b r. r ≡ answers.difference a b };

    fn sub(self, b: Answer) -> Answer {
        let found = on_both(pairs::difference::difference, self.found, b.found);
        Answer { found }
    }
}

impl Mul for Answer {
    type Output = Answer;

    ghost mul_gives = { λ a b r. r ≡ answers.product a b };

    fn mul(self, b: Answer) -> Answer {
        let found = on_both(pairs::product::product, self.found, b.found);
        Answer { found }
    }
}

impl Div for Answer {
    type Output = Answer;

    ghost div_gives = { λ a b r. r ≡ answers.quotient a b };

    fn div(self, b: Answer) -> Answer {
        let found = on_both(pairs::quotient::quotient, self.found, b.found);
        Answer { found }
    }
}

// Times a whole number.
impl Mul<u64> for Answer {
    type Output = Answer;

    ghost mul_gives = { λ a n r. r ≡ answers.times a n };

    fn mul(self, n: u64) -> Answer {
        let found = self.found.and_then(|p| pairs::times::times(p, n));
        Answer { found }
    }
}

// Over a whole number.
impl Div<u64> for Answer {
    type Output = Answer;

    ghost div_gives = { λ a n r. r ≡ answers.over a n };

    fn div(self, n: u64) -> Answer {
        let found = self.found.and_then(|p| pairs::over::over(p, n));
        Answer { found }
    }
}

impl From<Pair> for Answer {
    ghost from_gives = { λ p r. r ≡ given p };

    fn from(p: Pair) -> Answer {
        Answer { found: Ok(p) }
    }
}

impl Answer {
    // An exact pair.
    pub(crate) fn exact(n: u64) -> Answer
        ensures { result ≡ given (ends n n) }
    {
        Answer::from(Pair { low: n, high: n })
    }

    pub(crate) fn pi() -> Answer
        ensures { result ≡ series.pi answers }
    {
        Answer::from(pairs::constants::pi())
    }

    pub(crate) fn ln_ten() -> Answer
        ensures { result ≡ series.ln_ten answers }
    {
        Answer::from(pairs::constants::ln_ten())
    }

    pub(crate) fn root(self) -> Answer
        ensures { result ≡ answers.root self }
    {
        let found = self.found.and_then(pairs::root::root);
        Answer { found }
    }

    pub(crate) fn fifth_root(self) -> Answer
        ensures { result ≡ answers.fifth_root self }
    {
        let found = self.found.and_then(pairs::fifth_root::fifth_root);
        Answer { found }
    }

    pub(crate) fn atan(self) -> Answer
        ensures { result ≡ series.atan answers self }
    {
        let found = self.found.and_then(pairs::atan::atan);
        Answer { found }
    }

    // exp(-self).
    pub(crate) fn exp_neg(self) -> Answer
        ensures { result ≡ series.exp_neg answers self }
    {
        let found = self.found.and_then(pairs::exp_neg::exp_neg);
        Answer { found }
    }

    // Whether it is the pair [0, 0].
    pub(crate) fn is_zero(self) -> bool
        ensures { (result ≡ true → self ≡ given (ends 0 0)) × (self ≡ given (ends 0 0) → result ≡ true) }
    {
        self.found == Ok(Pair { low: 0, high: 0 })
    }

    // The pair, [0, 0] of a refusal: `figures` has it so, which every clause speaks of.
    pub(crate) fn pair(self) -> Pair
        ensures { result ≡ self.pair }
    {
        self.found.unwrap_or(Pair { low: 0, high: 0 })
    }
}
