// What a line calls by its name, on its numbers.
ghost use Rattle.std.specs.Prelude.{◌≡◌, IsNone};

use crate::line::name_and_numbers;
use crate::reply::Reply;
use chain::factor::factor;
use chain::flux::flux;
use pairs::arc::arc;
use pairs::atan::atan;
use pairs::constants::{ln_ten, pi};
use pairs::difference::difference;
use pairs::exp_neg::exp_neg;
use pairs::fifth_root::fifth_root;
use pairs::h_series::h_series;
use pairs::over::over;
use pairs::product::product;
use pairs::quotient::quotient;
use pairs::root::root;
use pairs::sum::sum;
use pairs::times::times;
use planning::free_place::first_free_place;
use planning::stand_off::stand_off;
use register::places::Register;
use which::which_pools::which_pools;

// What a line is answered; None where it cannot be read.
pub(crate) fn reply_to(line: &[u8], register: &mut Register) -> Option<Reply>
    ensures { IsNone result → register.new ≡ register.old }
{
    let (name, mut numbers) = name_and_numbers(line)?;
    let reply = match name {
        "sum" => Reply::Operation(sum(numbers.pair()?, numbers.last_pair()?)),
        "difference" => Reply::Operation(difference(numbers.pair()?, numbers.last_pair()?)),
        "product" => Reply::Operation(product(numbers.pair()?, numbers.last_pair()?)),
        "quotient" => Reply::Operation(quotient(numbers.pair()?, numbers.last_pair()?)),
        "times" => Reply::Operation(times(numbers.pair()?, numbers.last()?)),
        "over" => Reply::Operation(over(numbers.pair()?, numbers.last()?)),
        "root" => Reply::Operation(root(numbers.last_pair()?)),
        "fifth_root" => Reply::Operation(fifth_root(numbers.last_pair()?)),
        "arc" => Reply::Operation(arc(numbers.last_pair()?)),
        "atan" => Reply::Operation(atan(numbers.last_pair()?)),
        "exp_neg" => Reply::Operation(exp_neg(numbers.last_pair()?)),
        "h_series" => Reply::Operation(h_series(numbers.last_pair()?)),
        "pi" => {
            numbers.end()?;
            Reply::Operation(Ok(pi()))
        }
        "ln10" => {
            numbers.end()?;
            Reply::Operation(Ok(ln_ten()))
        }
        "flux" => Reply::Flux(flux(numbers.enquiry()?)),
        "factor" => Reply::Factor(factor(numbers.next()?, numbers.next()?, numbers.last()?)),
        "standoff" => {
            let limit = numbers.next()?;
            Reply::StandOff(stand_off(numbers.scenario()?, limit))
        }
        "place" => {
            let limit = numbers.next()?;
            let grid = numbers.grid()?;
            Reply::FreePlace(first_free_place(numbers.scenario()?, limit, grid))
        }
        "light" => {
            let number = numbers.next()?;
            let answer = register.light(number, numbers.enquiry()?);
            Reply::Register(answer, register.sums())
        }
        "out" => {
            let answer = register.put_out(numbers.last()?);
            Reply::Register(answer, register.sums())
        }
        "which" => Reply::Which(which_pools(register, numbers.last()?)),
        _ => return None,
    };
    Some(reply)
}
