// A grid of places about a pool, and how far each is from the pool's rim.
ghost use Rattle.std.specs.Prelude.{◌≡◌, ◌≤◌, ◌<◌, nat_abs, pos, ◌+ℤ◌, MatchResult};
ghost use Rattle.planning.specs.declared.free_place.NoPlace.TheVariants.{OutsideLimits};
ghost use Rattle.planning.specs.Grid.{centre_distance};
ghost use Rattle.planning.specs.PlaceClaims.{InLimits};

use super::distance::{CentreMillimetres, whole_root};
use super::free_place::NoPlace;

// Rows of points, all the spacing apart, and the first corner from the pool's centre.
#[derive(Clone, Copy)]
pub struct Grid {
    pub rows: u32,
    // how many places each row has
    pub points: u32,
    // mm
    pub spacing: u32,
    // mm east of the centre; negative to the west
    pub east: i32,
    // mm north of the centre; negative to the south
    pub north: i32,
}

// How far an offset is from the centre after so many mm more to the east or north.
fn offset_after(offset: i32, along: u32) -> u32
    requires { (nat_abs offset ≤ 1_000_000) × (along ≤ 630_000) }
    ensures distance { result ≡ nat_abs (offset +ℤ pos along) }
    ensures most { result ≤ 1_630_000 }
{
    (offset + along as i32).unsigned_abs()
}

// A grid to which 42 does not apply.
#[derive(Clone, Copy)]
pub(crate) struct GridInLimits {
    pub(crate) grid: Grid,
    ghost limits: { InLimits grid },
}

impl TryFrom<Grid> for GridInLimits {
    type Error = NoPlace;

    fn try_from(grid: Grid) -> Result<GridInLimits, NoPlace>
        ensures { MatchResult result (λ g. g.grid ≡ grid) (λ why. (why ≡ OutsideLimits) × (InLimits grid → ⊥)) }
    {
        if (1..=64).contains(&grid.rows)
            && (1..=64).contains(&grid.points)
            && (100..=10_000).contains(&grid.spacing)
            && grid.east.unsigned_abs() <= 1_000_000
            && grid.north.unsigned_abs() <= 1_000_000
        {
            Ok(GridInLimits { grid })
        } else {
            Err(NoPlace::OutsideLimits)
        }
    }
}

impl GridInLimits {
    // The centre distance of a place.
    pub(crate) fn centre_distance(self, row: u32, place: u32) -> CentreMillimetres
        requires { (row < 64) × (place < 64) }
        ensures { result.0 ≡ (centre_distance self.grid row place).0 }
    {
        let Grid {
            spacing,
            east,
            north,
            ..
        } = self.grid;
        let eastward = u64::from(offset_after(east, place * spacing));
        let northward = u64::from(offset_after(north, row * spacing));
        CentreMillimetres(whole_root(eastward * eastward + northward * northward))
    }
}
