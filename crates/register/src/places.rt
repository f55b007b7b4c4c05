// The register of burning pools: a value of 32 places.
ghost use Rattle.std.specs.Prelude.{◌≡◌, ◌==◌, position};
ghost use Rattle.register.specs.Places.{no_pools};

use chain::enquiry::Enquiry;

// A place of the register: the number of the pool that burns there, 0 where none does; its enquiry; and low and high of its flux, W/m².
// No Option: `once` and `as_lit` of the claims in `history` tell a vacant place by the number 0, and one search finds a pool or a vacant place.
#[derive(Clone, Copy)]
pub struct BurningPool {
    pub number: u8,
    pub enquiry: Enquiry,
    pub low: u32,
    pub high: u32,
}

#[derive(Clone, Copy)]
pub struct Register {
    pub places: [BurningPool; 32],
}

// A place where no pool burns.
pub(crate) const VACANT: BurningPool = BurningPool {
    number: 0,
    enquiry: Enquiry {
        rate: 0,
        absorption: 0,
        heat: 0,
        area: 0,
        method: 0,
        distance: 0,
        face: 0,
        height: 0,
        transmissivity: 0,
    },
    low: 0,
    high: 0,
};

impl Register {
    // The register in which no pool burns.
    pub fn empty() -> Register
        ensures { result ≡ no_pools }
    {
        Register {
            places: [VACANT; 32],
        }
    }

    // The first place that has a number; 0 is the number of a vacant place.
    pub(crate) fn place_of(&self, number: u8) -> Option<usize>
        ensures { result ≡ position (λ p. p.number == number) self.now.places }
    {
        self.places.iter().position(|p| p.number == number)
    }
}
