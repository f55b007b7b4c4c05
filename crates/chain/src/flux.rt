// The radiant flux at a target: steps 1 to 8 with their refusals.
ghost use Rattle.std.specs.Prelude.{◌≡◌, ◌*◌, ◌≤◌, ltb};
ghost use Rattle.pairs.specs.Rounded.{U};
ghost use Rattle.pairs.specs.Answers.{answers};
ghost use Rattle.chain.specs.Chain as chain;
ghost use Rattle.chain.specs.Flux.{flux_of, shown};
ghost use Rattle.chain.specs.Private.{method_number, FlameOf, Prints};

use super::allowed::Allowed;
use super::answer::Answer;
use super::enquiry::{Enquiry, Printed, Turned};
use super::factor::{Heights, factor_at};
use super::kinds::Method;
use super::pool::{PoolFlame, diameter, flame};
use pairs::answer::Pair;

// Whether 4·L.low is under D.high.
fn too_low(diameter: Answer, height: Answer) -> bool
    ensures { result ≡ ltb (4 * height.pair.low) diameter.pair.high }
{
    height.pair().low < diameter.pair().high.div_ceil(4)
}

// What the air lets through of the flux in clear air: so many thousandths.
#[tactic(auto, unfolding(crate::specs::Chain::transmitted))]
fn transmitted(transmissivity: u16, clear: Answer) -> Answer
    ensures { result ≡ chain.transmitted answers transmissivity clear }
{
    clear * transmissivity as u64 / 1_000
}

// 8. q, which is E·F times the transmissivity over 1,000.
fn radiant_flux(a: Allowed, diameter: Answer, flame: &PoolFlame) -> Answer
    requires diameter_value { diameter ≡ chain.diameter_of answers a.enquiry }
    requires flame_of { FlameOf a.enquiry flame.now }
    ensures { result ≡ chain.radiant_flux answers a.enquiry }
{
    let e = a.enquiry;
    let radius = diameter / 2;
    let l = flame.height / radius;
    let h = Answer::exact(e.height.unsigned_abs() as u64 * 1_000_000_000) / radius;
    let distance = Answer::exact(e.distance as u64 * 1_000_000_000) / radius;
    let factor = factor_at(e.height, a.face, &Heights { l, h }, distance);
    transmitted(e.transmissivity, flame.power * factor)
}

// Low and high in whole W/m², and the note.
fn printed(q: Pair, method: Method) -> Printed
    requires { (q.low ≤ q.high) × (q.high ≤ 6_300 * U) }
    ensures { Prints q (method_number method) result }
{
    let low = (q.low / 1_000_000_000) as u32;
    let high = q.high.div_ceil(1_000_000_000) as u32;
    let note = match method {
        Method::ByDiameter => (low <= 5_000) as u8,
        Method::ByHeat | Method::Smoky => 0,
    };
    Printed { low, high, note }
}

// The answer to an enquiry inside its limits.
fn flux_within(a: Allowed) -> Result<Printed, Turned>
    ensures { shown result ≡ flux_of a.enquiry }
{
    let across = diameter(a.enquiry.area);
    let burning = flame(a, across);
    if too_low(across, burning.height) {
        return Err(Turned::LowFlame);
    }
    let q = radiant_flux(a, across, &burning).pair();
    Ok(printed(q, a.method))
}

// The radiant flux at a target.
pub fn flux(e: Enquiry) -> Result<Printed, Turned>
    ensures { shown result ≡ flux_of e }
{
    flux_within(Allowed::try_from(e)?)
}
