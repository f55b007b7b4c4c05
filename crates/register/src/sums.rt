// What the register shows: how many pools burn, the sum of their lows and the sum of their highs.
ghost use Rattle.std.specs.Prelude.{◌≡◌};
ghost use Rattle.register.specs.Sums.{sums_of};

use super::places::Register;

#[derive(Clone, Copy)]
pub struct Totals {
    pub burning: u32,
    // W/m²
    pub lows: u64,
    pub highs: u64,
}

impl Register {
    pub fn sums(&self) -> Totals
        ensures { result ≡ sums_of self.now }
    {
        let mut burning = 0;
        let mut lows = 0;
        let mut highs = 0;
        for pool in &self.places {
            if pool.number != 0 {
                burning += 1;
                lows += pool.low as u64;
                highs += pool.high as u64;
            }
        }
        Totals {
            burning,
            lows,
            highs,
        }
    }
}
