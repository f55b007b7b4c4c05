// What a line is answered, as it is printed: the state, which is 0 or the number of the refusal, and the figures.
use chain::enquiry::{Outside, Printed, Turned};
use pairs::answer::{Pair, Refusal};
use planning::free_place::{NoPlace, Place};
use planning::stand_off::{NoStandOff, PairAt};
use register::calls::CallRefusal;
use register::sums::Totals;
use std::fmt;
use which::which_pools::{FewestPools, NotOver};

#[derive(Drop)]
pub(crate) enum Reply {
    Operation(Result<Pair, Refusal>),
    Flux(Result<Printed, Turned>),
    Factor(Result<Pair, Outside>),
    StandOff(Result<PairAt, NoStandOff>),
    FreePlace(Result<Place, NoPlace>),
    // a call on the register, and what the register shows after it, refused or not
    Register(Result<(), CallRefusal>, Totals),
    Which(Result<FewestPools, NotOver>),
}

impl fmt::Display for Reply {
    fn fmt<W: fmt::Write>(&self, f: &mut fmt::Formatter<W>) -> fmt::Result {
        match self {
            Reply::Operation(a) => write_answer(f, a.map(|p| [p.low, p.high])),
            Reply::Factor(a) => write_answer(f, a.map(|p| [p.low, p.high])),
            Reply::Flux(a) => {
                write_answer(f, a.map(|p| [p.low as u64, p.high as u64, p.note as u64]))
            }
            Reply::StandOff(a) => write_answer(
                f,
                a.map(|p| [p.decimetres as u64, p.low as u64, p.high as u64]),
            ),
            Reply::FreePlace(a) => write_answer(
                f,
                a.map(|p| [p.row as u64, p.place as u64, p.low as u64, p.high as u64]),
            ),
            Reply::Register(a, t) => {
                let state = a.map_or_else(u8::from, |()| 0);
                write_line(f, state, &[t.burning as u64, t.lows, t.highs])
            }
            Reply::Which(Ok(pools)) => {
                write!(f, "0 {}", pools.count)?;
                for n in pools.numbers.iter().take(pools.count as usize) {
                    write!(f, " {n}")?;
                }
                Ok(())
            }
            Reply::Which(Err(why)) => write_line(f, u8::from(*why), &[0]),
        }
    }
}

// The figures of an answer; after a refusal a 0 for each.
fn write_answer<W: fmt::Write, E, const N: usize>(
    f: &mut fmt::Formatter<W>,
    answer: Result<[u64; N], E>,
) -> fmt::Result
where
    u8: From<E>,
{
    match answer {
        Ok(figures) => write_line(f, 0, &figures),
        Err(why) => write_line(f, u8::from(why), &[0; N]),
    }
}

fn write_line<W: fmt::Write>(f: &mut fmt::Formatter<W>, state: u8, figures: &[u64]) -> fmt::Result {
    write!(f, "{state}")?;
    for n in figures {
        write!(f, " {n}")?;
    }
    Ok(())
}
