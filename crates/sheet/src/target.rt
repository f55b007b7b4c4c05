// One target of an accepted sheet: its enquiry, and what is shown for it.
ghost use Rattle.std.specs.Prelude.{◌≡◌, ◌+◌, ◌≤◌, ◌<◌, length};
ghost use Rattle.chain.specs.Flux.{shown};
ghost use Rattle.sheet.specs.Layout.{fuel_size, pool_size, target_size};
ghost use Rattle.sheet.specs.Target.{enquiry_at, shown_of};
ghost use Rattle.sheet.specs.Private.{shown_by};

use super::bytes::{four, four_signed, two};
use super::layout::{
    ABSORPTION, COUNT_SIZE, DISTANCE, FACE, FUEL_INDEX, FUEL_SIZE, HEAT, HEIGHT, METHOD, POOL_SIZE,
    TARGET_SIZE, TRANSMISSIVITY,
};
use super::reading::Accepted;
use chain::enquiry::{Enquiry, Printed, Turned};
use chain::flux::flux;

// The enquiry whose fuel, pool and target stand at these places.
fn enquiry(sheet: &[u8], fuel: usize, pool: usize, target: usize) -> Enquiry
    requires { (fuel + fuel_size ≤ length sheet.now) × (pool + pool_size ≤ length sheet.now) × (target + target_size ≤ length sheet.now) }
    ensures { result ≡ enquiry_at sheet.now fuel pool target }
{
    Enquiry {
        rate: two(sheet, fuel),
        absorption: two(sheet, fuel + ABSORPTION),
        heat: two(sheet, fuel + HEAT),
        area: four(sheet, pool),
        method: sheet[pool + METHOD],
        distance: four(sheet, target + DISTANCE),
        face: sheet[target + FACE],
        height: four_signed(sheet, target + HEIGHT),
        transmissivity: two(sheet, target + TRANSMISSIVITY),
    }
}

impl Accepted<'_> {
    // The answer to the enquiry of target i.
    pub(crate) fn target(&self, i: usize) -> Result<Printed, Turned>
        requires { i < self.now.counts.targets }
        ensures { shown result ≡ shown_of self.now.bytes.now i }
    {
        let sheet = self.bytes;
        let first_pool = COUNT_SIZE + FUEL_SIZE * self.counts.fuels + COUNT_SIZE;
        let target = first_pool + POOL_SIZE * self.counts.pools + COUNT_SIZE + TARGET_SIZE * i;
        let pool = first_pool + POOL_SIZE * (two(sheet, target) as usize);
        let fuel = COUNT_SIZE + FUEL_SIZE * (two(sheet, pool + FUEL_INDEX) as usize);
        flux(enquiry(sheet, fuel, pool, target))
    }
}

// What is shown for a target: the state is 0 or the refusal number, and a refused target has zeros. The fill and the report both write these
// four numbers.
#[derive(Clone, Copy)]
pub(crate) struct Entry {
    pub(crate) state: u8,
    pub(crate) low: u32,
    pub(crate) high: u32,
    pub(crate) note: u8,
}

impl From<Result<Printed, Turned>> for Entry {
    ghost from_gives = { λ answer e. shown_by e ≡ shown answer };

    fn from(answer: Result<Printed, Turned>) -> Entry {
        match answer {
            Ok(p) => Entry {
                state: 0,
                low: p.low,
                high: p.high,
                note: p.note,
            },
            Err(why) => Entry {
                state: u8::from(why),
                low: 0,
                high: 0,
                note: 0,
            },
        }
    }
}
