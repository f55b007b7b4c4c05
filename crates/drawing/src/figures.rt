// One enquiry in floats, and the group of a target.
ghost use Rattle.std.specs.Prelude.{◌≡◌};
ghost use Rattle.drawing.specs.Figures.{ends_of, group_of};

use chain::enquiry::Enquiry;
use chain::flux::flux;

// Low and high in W/m², or the number of the refusal. Document 01 names this form, so it is no Result.
#[derive(Clone, Copy)]
pub enum Ends {
    Answered(f64, f64),
    Refused(u8),
}

// Low, middle and high in W/m².
#[derive(Clone, Copy, Default)]
pub struct Group {
    pub low: f64,
    pub middle: f64,
    pub high: f64,
}

// The ends of an enquiry.
pub fn ends_of(e: Enquiry) -> Ends
    ensures { result ≡ ends_of e }
{
    match flux(e) {
        Ok(p) => Ends::Answered(p.low as f64, p.high as f64),
        Err(why) => Ends::Refused(u8::from(why)),
    }
}

// The group of these ends: three zeros for a refusal.
pub fn group_of(e: Ends) -> Group
    ensures { result ≡ group_of e }
{
    match e {
        Ends::Answered(low, high) => Group {
            low,
            middle: (low + high) / 2.0,
            high,
        },
        Ends::Refused(_) => Group::default(),
    }
}
