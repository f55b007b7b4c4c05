// A number of two words over a word, by digits of 32 bits. The processor's own division of two words is slower: with it a quotient of pairs
// takes 61 ns and not 56.
ghost use Rattle.std.specs.Prelude.{◌≡◌, ◌+◌, ◌*◌, ◌/◌, ◌^◌, ◌≤◌, ◌<◌, MatchOption};

// One digit of a quotient and what it leaves.
#[derive(Clone, Copy)]
struct Digit {
    quotient: u64,
    rest: u64,
}

// The digit of (rest·2^32 + next) / d, for a divisor with its top bit set. The trial digit, by the divisor's upper half
// alone, is at most two too large.
fn trial_digit(rest: u64, next: u64, d: u64) -> Digit
    requires { (2 ^ 63 ≤ d) × (rest < d) × (next < 2 ^ 32) }
    ensures { (rest * 2 ^ 32 + next ≡ result.quotient * d + result.rest) × (result.rest < d) }
{
    let upper = d / 0x1_0000_0000;
    let lower = d % 0x1_0000_0000;
    let trial = rest / upper;
    let left = rest % upper * 0x1_0000_0000 + next;
    let taken = trial * lower;
    if taken <= left {
        return Digit {
            quotient: trial,
            rest: left - taken,
        };
    }
    let short = taken - left;
    if short <= d {
        return Digit {
            quotient: trial - 1,
            rest: d - short,
        };
    }
    Digit {
        quotient: trial - 2,
        rest: d - (short - d),
    }
}

// The power of two that brings d's highest set bit to bit 63.
fn scale_of(d: u64) -> u64
    requires { 0 < d }
    ensures { (2 ^ 63 ≤ d * result) × (d * result < 2 ^ 64) }
{
    1u64 << d.leading_zeros()
}

// The digit of (rest·2^32 + next) / d, for any divisor above rest.
fn next_digit(rest: u64, next: u64, d: u64) -> Digit
    requires { (rest < d) × (next < 2 ^ 32) }
    ensures { (rest * 2 ^ 32 + next ≡ result.quotient * d + result.rest) × (result.rest < d) }
{
    if d < 0x1_0000_0000 {
        let n = rest * 0x1_0000_0000 + next;
        return Digit {
            quotient: n / d,
            rest: n % d,
        };
    }
    let scale = scale_of(d);
    let moved = next * scale;
    let found = trial_digit(
        rest * scale + moved / 0x1_0000_0000,
        moved % 0x1_0000_0000,
        d * scale,
    );
    Digit {
        quotient: found.quotient,
        rest: found.rest / scale,
    }
}

// n / d rounded down, for a quotient of one word.
pub(crate) fn divided(n: u128, d: u64) -> u64
    requires { n / 2 ^ 64 < d }
    ensures { result ≡ n / d }
{
    let first = next_digit(
        (n >> 64) as u64,
        (n / 0x1_0000_0000 % 0x1_0000_0000) as u64,
        d,
    );
    let second = next_digit(first.rest, (n % 0x1_0000_0000) as u64, d);
    first.quotient * 0x1_0000_0000 + second.quotient
}

// n / d rounded down, or none where it has more than one word or d is 0.
pub(crate) fn checked_divided(n: u128, d: u64) -> Option<u64>
    ensures { MatchOption result (d ≤ n / 2 ^ 64) (λ q. q ≡ n / d) }
{
    if u128::from(d) <= n >> 64 {
        return None;
    }
    Some(divided(n, d))
}
