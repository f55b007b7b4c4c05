// The fixed random sequence that the operations are timed on.
use pairs::answer::Pair;

const LENGTH: usize = 1024;

// One step of a 64-bit xorshift generator (13, 7, 17).
fn stepped(x: u64) -> u64 {
    let a = x ^ (x << 13);
    let b = a ^ (a >> 7);
    b ^ (b << 17)
}

// A number of 31 to 51 bits, its length picked by the lowest bits of x.
fn end_of(x: u64) -> u64 {
    ((x >> 14) | 0x4_0000_0000_0000) >> (x % 21)
}

// 1,024 numbers.
pub(crate) fn ends() -> [u64; LENGTH] {
    let mut numbers = [0; LENGTH];
    let mut x = 88_172_645_463_325_252;
    for number in &mut numbers {
        x = stepped(x);
        *number = end_of(x);
    }
    numbers
}

// The pair number n: its low end from the sequence, its width below 8.
pub(crate) fn pair_at(numbers: &[u64; LENGTH], n: u64) -> Pair {
    let low = numbers[(n % LENGTH as u64) as usize] % 0x8_0000_0000_0000;
    Pair {
        low,
        high: low + low % 8,
    }
}
