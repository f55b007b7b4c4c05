// The root of a pair. A starting number, worked out from the radicand's leading bits, starts the root; two steps on one word bring it
// near, and Newton's steps on the whole radicand run until the root is reached: the answer does not depend on how good the start was.
ghost use Rattle.std.specs.Prelude.{◌≡◌, ◌+◌, ◌*◌, ◌/◌, ◌^◌, ◌≤◌, ◌<◌};
ghost use Rattle.pairs.specs.Rounded.{U, root_down, root_up};
ghost use Rattle.pairs.specs.Figures.{figures};
ghost use Rattle.pairs.specs.Answers.{root_of};
ghost use Rattle.std.specs.Int.Count.{count_leading_zeros};

use super::answer::{Pair, Refusal};
use super::division::divided;
use super::unit::in_trillionths;

// The starting number of i: the greatest s with s·s at most 65,536·i. A parabola guesses it, within 2 in 100, and Newton's steps run
// until it is reached: one for most i, two for the rest.
fn starting_number(i: u64) -> u64
    requires { (256 ≤ i) × (i < 1024) }
    ensures { result ≡ root_down (65536 * i) }
{
    let n = 65_536 * i;
    let guess = 2304 + i * (3968 - i) / 512;
    let mut s = (guess + n / guess) / 2;
    while n < s * s {
        s = (s + n / s) / 2;
    }
    s
}

// Near the root of a word whose two upper bits are not both 0: the starting number of its ten upper bits, and two of Newton's steps.
#[tactic(auto, using(crate::proofs::root::Scaling::steps))]
fn near_root(word: u64) -> u64
    requires { 2 ^ 62 ≤ word }
    ensures { (0 < result) × (result < 2 ^ 36) }
{
    let first = starting_number(word / 0x40_0000_0000_0000) * 0x8_0000;
    let second = (first + word / first) / 2;
    (second + word / second) / 2
}

// The upper word of n after an even power of two, found from its leading zero bits, has brought it into the span of the starting
// numbers.
fn scaled(n: u128) -> u64
    requires { 0 < n }
    ensures { (result ≡ n * 2 ^ (2 * (count_leading_zeros 128 n / 2)) / 2 ^ 64) × (2 ^ 62 ≤ result) }
{
    ((n << (2 * (n.leading_zeros() / 2))) >> 64) as u64
}

// Near the root of n.
#[tactic(auto, using(crate::proofs::root::Scaling::start_lt))]
fn start(n: u128) -> u64
    requires { n < 2 ^ 104 }
    ensures { result < 2 ^ 63 }
{
    if n == 0 {
        return 0;
    }
    ((u128::from(near_root(scaled(n))) << 32) >> (n.leading_zeros() / 2)) as u64
}

// One of Newton's steps towards the root of n. From a near start a root takes 48 ns, both its ends; `isqrt`, which halves 64 times, some
// 430. The bounds are of bare numbers: a type would be unwrapped at each step.
fn refined(n: u128, s: u64) -> u64
    requires { (0 < s) × (n ≤ s * 2 ^ 63) × (s < 2 ^ 63) }
    ensures { (result ≡ (s + n / s) / 2) × (result < 2 ^ 63) }
{
    (s + divided(n, s)) / 2
}

// The greatest s with s·s at most n, from any number to start with.
#[tactic(auto, using(crate::proofs::root::Newton::stepped, crate::proofs::root::Newton::reached, crate::proofs::root::Newton::above_0))]
fn whole_root(n: u128, near: u64) -> u64
    requires { (n < 2 ^ 104) × (near < 2 ^ 63) }
    ensures { result ≡ root_down n }
{
    if n == 0 {
        return 0;
    }
    let least = 2 * (n >> 64) as u64 + 2;
    let mut s = refined(n, near.max(least));
    while n < u128::from(s) * u128::from(s) {
        s = refined(n, s);
    }
    s
}

// The least s with s·s at least n: one more than the root of n - 1.
fn whole_root_up(n: u128, near: u64) -> u64
    requires { (n < 2 ^ 104) × (near < 2 ^ 63) }
    ensures { result ≡ root_up n }
{
    if n == 0 {
        return 0;
    }
    whole_root(n - 1, near) + 1
}

// The start of the high end: that of the low end where the two are close together.
fn high_start(p: Pair, near: u64) -> u64
    requires { (p.low ≤ p.high) × (near < 2 ^ 63) }
    ensures { result < 2 ^ 63 }
{
    if p.high - p.low <= p.low / 0x100_0000 {
        return near;
    }
    start(in_trillionths(p.high))
}

// [root of aU down, root of bU up].
#[tactic(auto, unfolding(crate::specs::Rounded::root, crate::specs::Answers::root_of, crate::specs::Answers::fitting), using(crate::proofs::WholeRoot::root_up_short))]
pub fn root(p: Pair) -> Result<Pair, Refusal>
    ensures { figures result ≡ root_of p }
{
    p.admit()?;
    let near = start(in_trillionths(p.low));
    Ok(Pair {
        low: whole_root(in_trillionths(p.low), near),
        high: whole_root_up(in_trillionths(p.high), high_start(p, near)),
    })
}
