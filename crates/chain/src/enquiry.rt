// What is asked of the chain, and what it answers.
ghost use Rattle.std.specs.Prelude.{◌≡◌};

// The whole numbers of one enquiry, in document 01's units. Method and face are numbers, since any may be asked: 13 and 15 refuse the rest.
#[derive(Clone, Copy)]
pub struct Enquiry {
    // burning rate m of a large pool, g/(m²·s)
    pub rate: u16,
    // absorption k, hundredths per metre
    pub absorption: u16,
    // heat of combustion c, tenths of MJ/kg
    pub heat: u16,
    // area a, dm²
    pub area: u32,
    // 1 (A.11), 2 (A.12) or 3 (smoky fuels)
    pub method: u8,
    // rim distance d, mm
    pub distance: u32,
    // 1 vertical, 2 horizontal, 3 tilted
    pub face: u8,
    // height of the target above the flame's base, mm; negative below it
    pub height: i32,
    // transmissivity of the air, thousandths
    pub transmissivity: u16,
}

// Low and high in W/m², and the note.
#[derive(Clone, Copy)]
pub struct Printed {
    pub low: u32,
    pub high: u32,
    pub note: u8,
}

// Why an enquiry is turned back, each with its number in documents 01 and 02, in the order of the tests.
#[derive(Clone, Copy)]
pub enum Turned {
    Fuel = 11,
    Area = 12,
    Method = 13,
    Distance = 14,
    Face = 15,
    Height = 18,
    Transmissivity = 19,
    LowFlame = 16,
}

impl From<Turned> for u8 {
    ghost use Rattle.chain.specs.Flux.{number_of};

    ghost from_gives = { λ why n. n ≡ number_of why };

    fn from(why: Turned) -> u8 {
        why as u8
    }
}

// Why a factor is refused: the numbers of document 01, in their order.
#[derive(Clone, Copy)]
pub enum Outside {
    Height = 21,
    Distance = 22,
    Face = 23,
}

impl From<Outside> for u8 {
    ghost use Rattle.chain.specs.Factor.{number_of};

    ghost from_gives = { λ why n. n ≡ number_of why };

    fn from(why: Outside) -> u8 {
        why as u8
    }
}
