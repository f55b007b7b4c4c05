// The first free place of a grid: the first of the walk whose high figure is at most the limit.
ghost use Rattle.std.specs.Prelude.{◌≡◌, ◌<◌};
ghost use Rattle.planning.specs.declared.free_place.NoPlace.TheVariants.{Flux};
ghost use Rattle.planning.specs.Distance.{radius_of};
ghost use Rattle.planning.specs.Grid.{rim_distance};
ghost use Rattle.planning.specs.FreePlace.{number_of, shown, own_refusal, walked, free_place_of};
ghost use Rattle.planning.specs.Private.{InSpan, Asked};

use super::distance::{RimMillimetres, radius_of};
use super::grid::{Grid, GridInLimits};
use super::scenario::Scenario;
use chain::enquiry::{Printed, Turned};
use chain::flux::flux;

// A place of the grid, row and place from 0, and low and high there in W/m².
#[derive(Clone, Copy)]
pub struct Place {
    pub row: u32,
    pub place: u32,
    pub low: u32,
    pub high: u32,
}

// Why there is no first free place: the flux is refused, the grid is outside its limits (42), or no place is free (43).
#[derive(Clone, Copy)]
pub enum NoPlace {
    Flux(Turned),
    OutsideLimits,
    Nowhere,
}

impl From<Turned> for NoPlace {
    ghost from_gives = { λ why r. r ≡ Flux why };

    fn from(why: Turned) -> Self {
        Self::Flux(why)
    }
}

// The flux's own number, 42 or 43.
impl From<NoPlace> for u8 {
    ghost from_gives = { λ why n. n ≡ number_of why };

    fn from(why: NoPlace) -> u8 {
        match why {
            NoPlace::Flux(why) => u8::from(why),
            NoPlace::OutsideLimits => 42,
            NoPlace::Nowhere => 43,
        }
    }
}

// A rim distance, and the flux there.
#[derive(Clone, Copy)]
struct FluxAtRim {
    rim: RimMillimetres,
    flux: Printed,
}

// A walk over a grid about the scenario's pool. The flux is refused at no rim distance of the span.
#[derive(Clone, Copy)]
struct Walk {
    scenario: Scenario,
    limit: u32,
    grid: GridInLimits,
    // of the pool, mm
    radius: u32,
    ghost radius_of_pool: { radius ≡ radius_of scenario.area },
    ghost accepted: { own_refusal scenario ≡ 0 },
}

impl Walk {
    fn rim_distance(self, row: u32, place: u32) -> RimMillimetres
        requires { (row < 64) × (place < 64) }
        ensures { result.0 ≡ (rim_distance self.scenario self.grid.grid row place).0 }
    {
        self.grid.centre_distance(row, place).to_rim(self.radius)
    }

    // The flux at a rim distance of the span: what was asked last, where the distance is the same.
    fn asked(self, rim: RimMillimetres, last: FluxAtRim) -> FluxAtRim
        requires { InSpan rim × Asked self.scenario last }
        ensures { (result.rim ≡ rim) × Asked self.scenario result }
    {
        if rim == last.rim {
            return last;
        }
        let flux = flux(self.scenario.at_distance(rim.0)).unwrap();
        FluxAtRim { rim, flux }
    }

    // Row by row. Nested loops in a block that its label leaves with the found place: a form that document 01 names.
    fn first_free(self, first: FluxAtRim) -> Result<Place, NoPlace>
        requires { Asked self.scenario first }
        ensures { shown result ≡ walked self.scenario self.limit self.grid.grid }
    {
        let Grid { rows, points, .. } = self.grid.grid;
        let mut last = first;
        'walk: {
            for row in 0..rows {
                for place in 0..points {
                    let rim = self.rim_distance(row, place);
                    if rim.is_in_span() {
                        last = self.asked(rim, last);
                        let Printed { low, high, .. } = last.flux;
                        if high <= self.limit {
                            break 'walk Ok(Place {
                                row,
                                place,
                                low,
                                high,
                            });
                        }
                    }
                }
            }
            Err(NoPlace::Nowhere)
        }
    }
}

// The first free place of a grid, from a scenario and a limit in W/m². The flux's own refusal does not depend on the distance inside the
// span, so it is asked for at the first place, brought into the span: a walk of 4,096 places asks 4,096 times.
pub fn first_free_place(s: Scenario, limit: u32, g: Grid) -> Result<Place, NoPlace>
    ensures { shown result ≡ free_place_of s limit g }
{
    let grid = GridInLimits::try_from(g)?;
    let radius = radius_of(s.area);
    let rim = grid.centre_distance(0, 0).to_rim(radius).into_span();
    let flux = flux(s.at_distance(rim.0))?;
    let walk = Walk {
        scenario: s,
        limit,
        grid,
        radius,
    };
    walk.first_free(FluxAtRim { rim, flux })
}
