// Distances from the pool's centre and from its rim, in whole mm, each of a type of its own.
ghost use Rattle.std.specs.Prelude.{◌≡◌, ◌<◌, ◌≤◌, ◌↔◌, IsTrue, Ok};
ghost use Rattle.pairs.specs.Rounded.{root_down};
ghost use Rattle.planning.specs.Distance.{radius_pair, radius_of, to_rim};
ghost use Rattle.planning.specs.Private.{InSpan};

use pairs::answer::{Pair, Refusal};
use pairs::constants::pi;
use pairs::over::over;
use pairs::quotient::quotient;
use pairs::root::root;

#[derive(Clone, Copy)]
pub(crate) struct CentreMillimetres(pub(crate) u32);

#[derive(Clone, Copy, PartialEq, Eq)]
pub(crate) struct RimMillimetres(pub(crate) u32);

impl CentreMillimetres {
    // From the centre to the rim: the only way.
    pub(crate) fn to_rim(self, radius: u32) -> RimMillimetres
        ensures { result.0 ≡ (to_rim self radius).0 }
    {
        RimMillimetres(self.0.saturating_sub(radius))
    }
}

impl RimMillimetres {
    pub(crate) fn is_in_span(self) -> bool
        ensures { IsTrue result ↔ InSpan self }
    {
        (1_000..=200_000).contains(&self.0)
    }

    // The nearest distance of the span.
    pub(crate) fn into_span(self) -> RimMillimetres
        ensures { InSpan result × (InSpan self → result.0 ≡ self.0) }
    {
        RimMillimetres(self.0.clamp(1_000, 200_000))
    }
}

// R of step 1. Inside the limits of an area no operation refuses.
fn radius_pair(area: u32) -> Result<Pair, Refusal>
    requires { (100 ≤ area) × (area ≤ 190_000) }
    ensures { result ≡ Ok (radius_pair area) }
{
    let four_areas = u64::from(area) * 40_000_000_000;
    let square = quotient(
        Pair {
            low: four_areas,
            high: four_areas,
        },
        pi(),
    )?;
    over(root(square)?, 2)
}

// The radius in whole mm, its high end rounded up; 0 for an area outside its limits, which the flux refuses.
pub(crate) fn radius_of(area: u32) -> u32
    ensures { 100 ≤ area → area ≤ 190_000 → result ≡ radius_of area }
{
    if !(100..=190_000).contains(&area) {
        return 0;
    }
    let radius = radius_pair(area).unwrap();
    radius.high.div_ceil(1_000_000_000) as u32
}

// The whole part of the root of n.
pub(crate) fn whole_root(n: u64) -> u32
    ensures { result ≡ root_down n }
{
    n.isqrt() as u32
}
