// The stand-off of a scenario: the smallest rim distance from which every distance of the span keeps the limit.
ghost use Rattle.std.specs.Prelude.{◌≡◌, ◌≤◌, Ok, MatchResult};
ghost use Rattle.chain.specs.Flux.{number_of as flux_number};
ghost use Rattle.planning.specs.declared.stand_off.NoStandOff.TheVariants.{Flux};
ghost use Rattle.planning.specs.StandOff.{number_of, shown, flux_at, shown_at, stand_off, stand_off_of};
ghost use Rattle.planning.specs.Claims.{Kept};

use super::scenario::Scenario;
use chain::enquiry::{Printed, Turned};
use chain::flux::flux;

// A rim distance in decimetres, and low and high there in W/m².
#[derive(Clone, Copy)]
pub struct PairAt {
    pub decimetres: u32,
    pub low: u32,
    pub high: u32,
}

// Why there is no stand-off: the flux is refused, or its high figure is over the limit at the far end of the span (41).
#[derive(Clone, Copy)]
pub enum NoStandOff {
    Flux(Turned),
    OverLimit,
}

impl From<Turned> for NoStandOff {
    ghost from_gives = { λ why r. r ≡ Flux why };

    fn from(why: Turned) -> Self {
        Self::Flux(why)
    }
}

// The flux's own number, or 41.
impl From<NoStandOff> for u8 {
    ghost from_gives = { λ why n. n ≡ number_of why };

    fn from(why: NoStandOff) -> u8 {
        match why {
            NoStandOff::Flux(why) => u8::from(why),
            NoStandOff::OverLimit => 41,
        }
    }
}

// The pair at a rim distance in decimetres.
fn pair_at(s: Scenario, decimetres: u32) -> Result<PairAt, Turned>
    requires { decimetres ≤ 2_000 }
    ensures { MatchResult result (λ p. shown (Ok p) ≡ shown_at s decimetres × (flux_at s decimetres).state ≡ 0) (λ why. (flux_at s decimetres).state ≡ flux_number why) }
{
    let Printed { low, high, .. } = flux(s.at_distance(100 * decimetres))?;
    Ok(PairAt {
        decimetres,
        low,
        high,
    })
}

// From 2,000 decimetres, where the limit is kept, down to 10 as long as it is kept. A flux that is not refused at 2,000 is refused at none.
fn nearest(s: Scenario, limit: u32, farthest: PairAt) -> PairAt
    requires farthest_value { shown (Ok farthest) ≡ shown_at s 2_000 }
    requires kept { Kept s limit 2_000 }
    ensures { shown (Ok result) ≡ shown_at s (stand_off s limit) }
{
    let mut here = farthest;
    for decimetres in (10..2_000).rev() {
        let nearer = pair_at(s, decimetres).unwrap();
        if limit < nearer.high {
            return here;
        }
        here = nearer;
    }
    here
}

// The stand-off of a scenario from a limit in W/m².
pub fn stand_off(s: Scenario, limit: u32) -> Result<PairAt, NoStandOff>
    ensures { shown result ≡ stand_off_of s limit }
{
    let farthest = pair_at(s, 2_000)?;
    if limit < farthest.high {
        return Err(NoStandOff::OverLimit);
    }
    Ok(nearest(s, limit, farthest))
}
