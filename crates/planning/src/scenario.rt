// A fire, a target's face and height, and the air between: an enquiry without its distance.
ghost use Rattle.std.specs.Prelude.{◌≡◌};
ghost use Rattle.planning.specs.Scenario.{at_distance};

use chain::enquiry::Enquiry;

// The whole numbers of an enquiry but the rim distance, in document 01's units. Any may be outside its limits: the flux refuses it.
#[derive(Clone, Copy)]
pub struct Scenario {
    // burning rate m of a large pool, g/(m²·s)
    pub rate: u16,
    // absorption k, hundredths per metre
    pub absorption: u16,
    // heat of combustion c, tenths of MJ/kg
    pub heat: u16,
    // area a, dm²
    pub area: u32,
    // 1 (A.11), 2 (A.12) or 3 (smoky fuels)
    pub method: u8,
    // 1 vertical, 2 horizontal, 3 tilted
    pub face: u8,
    // height of the target above the flame's base, mm; negative below it
    pub height: i32,
    // transmissivity of the air, thousandths
    pub transmissivity: u16,
}

impl Scenario {
    // The enquiry at a rim distance in mm.
    pub(crate) fn at_distance(self, distance: u32) -> Enquiry
        ensures { result ≡ at_distance self distance }
    {
        Enquiry {
            rate: self.rate,
            absorption: self.absorption,
            heat: self.heat,
            area: self.area,
            method: self.method,
            distance,
            face: self.face,
            height: self.height,
            transmissivity: self.transmissivity,
        }
    }
}
