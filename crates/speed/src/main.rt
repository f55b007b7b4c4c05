// Runs one operation on pairs many times over a fixed random sequence, and prints the check sum of all its ends; or calls the register many
// times, or asks it which pools put it over, and prints the check sum of what is answered. The first argument names the operation, the second
// says how many times. With no arguments each is run 1,000 times.
#![tactic(auto)]

mod register_calls;
mod sequence;
mod which_calls;

use pairs::answer::{Pair, Refusal};
use pairs::atan::atan;
use pairs::exp_neg::exp_neg;
use pairs::fifth_root::fifth_root;
use pairs::product::product;
use pairs::quotient::quotient;
use pairs::root::root;
use register_calls::calls_sum;
use sequence::{ends, pair_at};
use std::env::Env;
use std::io;
use which_calls::which_sum;

// The check sum with both ends of an answer, the high end twice; 1 more for a refusal.
fn with_answer(total: u64, answer: Result<Pair, Refusal>) -> u64 {
    match answer {
        Ok(p) => total
            .wrapping_add(p.low)
            .wrapping_add(p.high.wrapping_add(p.high)),
        Err(_) => total.wrapping_add(1),
    }
}

// A 128th of a pair, which lies below 20.
fn below_20(p: Pair) -> Pair {
    Pair {
        low: p.low / 128,
        high: p.high / 128,
    }
}

// 20 and a sixteenth of a pair, which lies below 161.
fn from_20(p: Pair) -> Pair {
    Pair {
        low: 20_000_000_000_000 + p.low / 16,
        high: 20_000_000_000_000 + p.high / 16,
    }
}

// The check sum of `count` answers, over neighbours in the sequence.
fn check_sum<F: Fn(Pair, Pair) -> Result<Pair, Refusal>>(operation: F, count: u64) -> u64
    requires { F.IsAlwaysCallable operation }
{
    let numbers = ends();
    let mut total = 0;
    for n in 0..count {
        total = with_answer(
            total,
            operation(pair_at(&numbers, n), pair_at(&numbers, n + 1)),
        );
    }
    total
}

// The check sum of what a name says, so many times; of a cold exp_neg for any other name.
fn sum_of(name: &[u8], count: u64) -> u64 {
    match name {
        b"product" => check_sum(product, count),
        b"quotient" => check_sum(quotient, count),
        b"root" => check_sum(|p, _| root(p), count),
        b"fifth_root" => check_sum(|p, _| fifth_root(p), count),
        b"atan" => check_sum(|p, _| atan(p), count),
        b"exp_neg" => check_sum(|p, _| exp_neg(below_20(p)), count),
        b"calls" => calls_sum(count, false),
        b"calls_and_sums" => calls_sum(count, true),
        b"which" => which_sum(count),
        _ => check_sum(|p, _| exp_neg(from_20(p)), count),
    }
}

// The number that the decimal digits make. A byte that is no digit is passed over, and a number of 17 digits stays.
fn number_in(text: &[u8]) -> u64 {
    text.iter()
        .filter_map(|b| (*b as char).to_digit(10))
        .fold(0, |n, digit| {
            if 1_000_000_000_000_000 < n {
                n
            } else {
                n * 10 + digit as u64
            }
        })
}

fn print_each(rt: &impl Print) -> io::Result<()> {
    let names = [
        &b"product"[..],
        b"quotient",
        b"root",
        b"fifth_root",
        b"atan",
        b"exp_neg",
        b"cold_exp_neg",
        b"calls",
        b"calls_and_sums",
        b"which",
    ];
    for name in names {
        rt.println(sum_of(name, 1000))?;
    }
    Ok(())
}

// How many times: the second argument.
fn count_asked(rt: &impl Env) -> u64 {
    let mut digits = [0u8; 4096];
    let n = rt.arg(2, &mut digits).unwrap_or(0);
    number_in(&digits[..n])
}

fn main(rt: HostRuntime) -> io::Result<()> {
    let mut name = [0u8; 4096];
    let n = rt.arg(1, &mut name).unwrap_or(0);
    if n == 0 {
        return print_each(&rt);
    }
    rt.println(sum_of(&name[..n], count_asked(&rt)))
}
