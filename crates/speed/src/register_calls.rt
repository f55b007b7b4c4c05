// Calls on the register: by turns a pool is lit, and the one that was lit twelve pools before it is put out.
use chain::enquiry::Enquiry;
use register::calls::CallRefusal;
use register::places::Register;
use register::sums::Totals;

// The enquiry of the k-th pool that is lit: each method and face, at 16 distances.
pub(crate) fn enquiry_of(k: u64) -> Enquiry {
    Enquiry {
        rate: 39,
        absorption: 350,
        heat: 432,
        area: 7_854,
        method: (k % 3 + 1) as u8,
        distance: (10_000 + k % 16 * 500) as u32,
        face: (k / 3 % 3 + 1) as u8,
        height: 0,
        transmissivity: 1_000,
    }
}

fn nth_call(register: &mut Register, n: u64) -> Result<(), CallRefusal> {
    let k = n / 2;
    if n % 2 == 0 {
        register.light((k % 24 + 1) as u32, enquiry_of(k))
    } else {
        register.put_out((k % 24 + 12) as u32 % 24 + 1)
    }
}

// The check sum with how many burn and both sums, that of the highs twice.
fn with_totals(total: u64, t: Totals) -> u64 {
    total
        .wrapping_add(t.burning as u64)
        .wrapping_add(t.lows)
        .wrapping_add(t.highs.wrapping_add(t.highs))
}

// The check sum of `count` calls, 1 for each refusal, and of the sums after them; of the sums after each call where they are asked for.
pub(crate) fn calls_sum(count: u64, after_each: bool) -> u64 {
    let mut register = Register::empty();
    let mut total = 0u64;
    for n in 0..count {
        if nth_call(&mut register, n).is_err() {
            total = total.wrapping_add(1);
        }
        if after_each {
            total = with_totals(total, register.sums());
        }
    }
    with_totals(total, register.sums())
}
