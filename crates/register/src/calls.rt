// The two calls: a pool is lit or put out.
ghost use Rattle.std.specs.Prelude.{◌≡◌, if◌then◌else◌};
ghost use Rattle.chain.specs.Flux.{outside};
ghost use Rattle.register.specs.Calls.{shown, refusal_number, light_of, put_out_of};

use super::places::{BurningPool, Register, VACANT};
use chain::enquiry::{Enquiry, Turned};
use chain::flux::flux;

// Why a call is refused: the number (51), 32 pools burn (52), or the flux is refused.
#[derive(Clone, Copy)]
pub enum CallRefusal {
    Number,
    Full,
    Flux(Turned),
}

impl From<Turned> for CallRefusal {
    ghost use Rattle.register.specs.declared.calls.CallRefusal.TheVariants.{Flux as FluxRefused};

    ghost from_gives = { λ why refusal. refusal ≡ FluxRefused why };

    fn from(why: Turned) -> CallRefusal {
        CallRefusal::Flux(why)
    }
}

impl From<CallRefusal> for u8 {
    ghost from_gives = { λ why number. number ≡ refusal_number why };

    fn from(why: CallRefusal) -> u8 {
        match why {
            CallRefusal::Number => 51,
            CallRefusal::Full => 52,
            CallRefusal::Flux(turned) => u8::from(turned),
        }
    }
}

// A pool has a number from 1 to 255.
fn pool_number(number: u32) -> Result<u8, CallRefusal>
    ensures { result ≡ (if outside 1 255 number then Err CallRefusal.Number else Ok number) }
{
    if !(1..=255).contains(&number) {
        return Err(CallRefusal::Number);
    }
    Ok(number as u8)
}

impl Register {
    // Lights a pool under a number, with its enquiry, in the first vacant place.
    pub fn light(&mut self, number: u32, e: Enquiry) -> Result<(), CallRefusal>
        ensures { shown result self.new ≡ light_of self.old number e }
    {
        let number = pool_number(number)?;
        if self.place_of(number).is_some() {
            return Err(CallRefusal::Number);
        }
        let at = self.place_of(0).ok_or(CallRefusal::Full)?;
        let p = flux(e)?;
        self.places[at] = BurningPool {
            number,
            enquiry: e,
            low: p.low,
            high: p.high,
        };
        Ok(())
    }

    // Puts out the pool of a number: its place is vacant again.
    pub fn put_out(&mut self, number: u32) -> Result<(), CallRefusal>
        ensures { shown result self.new ≡ put_out_of self.old number }
    {
        let number = pool_number(number)?;
        let at = self.place_of(number).ok_or(CallRefusal::Number)?;
        self.places[at] = VACANT;
        Ok(())
    }
}
