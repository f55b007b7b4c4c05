// A pair of trillionths, and why an operation on pairs gives none.
ghost use Rattle.std.specs.Prelude.{◌≡◌, ◌≤◌, ◌<◌, MatchResult};
ghost use Rattle.pairs.specs.declared.answer.Refusal.{Refusal};
ghost use Rattle.pairs.specs.declared.answer.Refusal.TheVariants.{Disordered};
ghost use Rattle.pairs.specs.Figures.{number_of};

// A low and a high end, whole numbers of 10^-12.
#[derive(Clone, Copy, PartialEq, Eq)]
pub struct Pair {
    pub low: u64,
    pub high: u64,
}

impl Pair {
    // Refuses a pair whose low end is above its high end.
    pub(crate) fn admit(self) -> Result<(), Refusal>
        ensures { MatchResult result (λ _. self.low ≤ self.high) (λ why. (why ≡ Disordered) × (self.high < self.low)) }
    {
        if self.high < self.low {
            return Err(Refusal::Disordered);
        }
        Ok(())
    }
}

// The refusals of document 01, each with its number.
#[derive(Clone, Copy, PartialEq, Eq)]
pub enum Refusal {
    Disordered = 61,
    ZeroDivisor = 62,
    OutOfSpan = 63,
    TooLarge = 64,
}

impl From<Refusal> for u8 {
    ghost from_gives = { λ why n. n ≡ number_of why };

    fn from(why: Refusal) -> u8 {
        why as u8
    }
}
