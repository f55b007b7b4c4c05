// An enquiry whose numbers are inside their limits, limits included.
ghost use Rattle.std.specs.Prelude.{◌≡◌, ◌≤◌, true, false, Err, MatchResult};
ghost use Rattle.chain.specs.Flux as flux;
ghost use Rattle.chain.specs.Private.{method_number, face_number};

use super::enquiry::{Enquiry, Turned};
use super::kinds::{Face, Method};

#[derive(Clone, Copy)]
pub(crate) struct Allowed {
    pub(crate) enquiry: Enquiry,
    pub(crate) method: Method,
    pub(crate) face: Face,
    ghost rate: { (10 ≤ enquiry.rate) × (enquiry.rate ≤ 150) },
    ghost absorption: { (10 ≤ enquiry.absorption) × (enquiry.absorption ≤ 500) },
    ghost heat: { (100 ≤ enquiry.heat) × (enquiry.heat ≤ 500) },
    ghost area: { (100 ≤ enquiry.area) × (enquiry.area ≤ 190_000) },
    ghost method_is: { method_number method ≡ enquiry.method },
    ghost distance: { (1_000 ≤ enquiry.distance) × (enquiry.distance ≤ 200_000) },
    ghost face_is: { face_number face ≡ enquiry.face },
    ghost height: { flux.height_outside enquiry.height ≡ false },
    ghost transmissivity: { (1 ≤ enquiry.transmissivity) × (enquiry.transmissivity ≤ 1_000) },
}

pub(crate) fn outside(n: u64, least: u64, most: u64) -> bool
    ensures { result ≡ flux.outside least most n }
{
    !(least..=most).contains(&n)
}

#[tactic(auto, unfolding(crate::specs::Flux::fuel_within))]
fn fuel_within(e: Enquiry) -> bool
    ensures { result ≡ flux.fuel_within e }
{
    !outside(e.rate as u64, 10, 150)
        && !outside(e.absorption as u64, 10, 500)
        && !outside(e.heat as u64, 100, 500)
}

// -5,000 to 20,000 mm.
#[tactic(auto, unfolding(crate::specs::Flux::height_outside))]
fn height_outside(height: i32) -> bool
    ensures { result ≡ flux.height_outside height }
{
    !(-5_000..=20_000).contains(&height)
}

// The tests of the numbers, in their order.
impl TryFrom<Enquiry> for Allowed {
    type Error = Turned;

    #[tactic(auto, unfolding(crate::specs::Flux::flux_of, crate::specs::Flux::limits, crate::specs::Flux::fuel_within))]
    fn try_from(e: Enquiry) -> Result<Allowed, Turned>
        ensures { MatchResult result (λ a. a.enquiry ≡ e) (λ why. flux.shown (Err why) ≡ flux.flux_of e) }
    {
        if !fuel_within(e) {
            return Err(Turned::Fuel);
        }
        if outside(e.area as u64, 100, 190_000) {
            return Err(Turned::Area);
        }
        let method = Method::try_from(e.method).or(Err(Turned::Method))?;
        if outside(e.distance as u64, 1_000, 200_000) {
            return Err(Turned::Distance);
        }
        let face = Face::try_from(e.face).or(Err(Turned::Face))?;
        if height_outside(e.height) {
            return Err(Turned::Height);
        }
        if outside(e.transmissivity as u64, 1, 1_000) {
            return Err(Turned::Transmissivity);
        }
        Ok(Allowed {
            enquiry: e,
            method,
            face,
        })
    }
}
