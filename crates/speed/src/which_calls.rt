// Which pools put it over: 32 pools burn, and one limit after another is asked.
use crate::register_calls::enquiry_of;
use register::places::Register;
use which::which_pools::{FewestPools, NotOver, which_pools};

// The pools from number 1 to 32 are lit.
fn alight() -> Register {
    let mut register = Register::empty();
    for k in 0..32u64 {
        let _ = register.light((k + 1) as u32, enquiry_of(k));
    }
    register
}

// The check sum with how many pools they are, and each number as often as there are places from its own on, of 32; or with the refusal's.
fn with_pools(total: u64, answer: Result<FewestPools, NotOver>) -> u64 {
    match answer {
        Ok(pools) => pools.numbers.iter().zip((1..=32u64).rev()).fold(
            total.wrapping_add(pools.count as u64),
            |sum, (number, places)| sum.wrapping_add(places.wrapping_mul(*number as u64)),
        ),
        Err(why) => total.wrapping_add(u8::from(why) as u64),
    }
}

// The check sum of `count` answers, at limits from 0 to 199,800 W/m² in steps of 200.
pub(crate) fn which_sum(count: u64) -> u64 {
    let register = alight();
    let mut total = 0;
    for n in 0..count {
        total = with_pools(total, which_pools(&register, (n % 1000 * 200) as u32));
    }
    total
}
