// The unit, and numbers of trillionths in a number of two words.
ghost use Rattle.std.specs.Prelude.{◌≡◌, ◌*◌};
ghost use Rattle.pairs.specs.Rounded.{U};

use super::answer::Pair;

pub(crate) const UNIT: u64 = 1_000_000_000_000;

pub(crate) const ONE: Pair = Pair {
    low: UNIT,
    high: UNIT,
};

pub(crate) const ZERO: Pair = Pair { low: 0, high: 0 };

// a·U.
pub(crate) fn in_trillionths(a: u64) -> u128
    ensures { result ≡ a * U }
{
    u128::from(a) * u128::from(UNIT)
}
