// Steps 1 to 5: the flame over a pool, and its emissive power.
#![tactic(auto, unfolding(pairs::specs::Answers::constant, pairs::specs::Answers::fitting, pairs::specs::Rounded::constant, crate::specs::Chain::diameter, crate::specs::Chain::optical_depth, crate::specs::Chain::unabsorbed, crate::specs::Chain::burning, crate::specs::Chain::flame_height, crate::specs::Chain::emissive_power_1, crate::specs::Chain::radiant_fraction, crate::specs::Chain::flame_surface, crate::specs::Chain::emissive_power_2))]

ghost use Rattle.std.specs.Prelude.{◌≡◌, ◌*◌, ◌≤◌};
ghost use Rattle.pairs.specs.Answers.{answers};
ghost use Rattle.chain.specs.Chain as chain;
ghost use Rattle.chain.specs.Private.{FlameOf};

use super::allowed::Allowed;
use super::answer::Answer;
use super::enquiry::Enquiry;
use super::kinds::Method;
use super::smoky::{emissive_power_3, flame_height_3, froude_number};

// 1. D = root((4a/100)/pi).
pub(crate) fn diameter(area: u32) -> Answer
    requires { area ≤ 190_000 }
    ensures { result ≡ chain.diameter answers (answers.constant (4 * area) 100) }
{
    let four_areas = Answer::exact(area as u64 * 40_000_000_000);
    (four_areas / Answer::pi()).root()
}

// 2. X = exp(-(k·D over 100)).
fn unabsorbed(absorption: u16, diameter: Answer) -> Answer
    ensures { result ≡ chain.unabsorbed answers absorption diameter }
{
    (diameter * absorption as u64 / 100).exp_neg()
}

// What burns of so many thousandths: n/1000·(1-X).
fn burning(n: u64, unabsorbed: Answer) -> Answer
    requires { n ≤ 14_250_000_000 }
    ensures { result ≡ chain.burning answers (answers.constant n 1000) unabsorbed }
{
    Answer::exact(n * 1_000_000_000) * (Answer::exact(1_000_000_000_000) - unabsorbed)
}

// 3. Q = (m·c·a/1000)·(1-X).
fn heat_release(e: Enquiry, unabsorbed: Answer) -> Answer
    requires { (e.rate ≤ 150) × (e.heat ≤ 500) × (e.area ≤ 190_000) }
    ensures { result ≡ chain.burning answers (answers.constant (e.rate * e.heat * e.area) 1000) unabsorbed }
{
    burning(e.rate as u64 * e.heat as u64 * e.area as u64, unabsorbed)
}

// 4. s = fifth root of Q; L = 0.235·(s·s) - 1.02·D.
fn flame_height(diameter: Answer, heat: Answer) -> Answer
    ensures { result ≡ chain.flame_height answers diameter heat }
{
    let s = heat.fifth_root();
    Answer::exact(235_000_000_000) * (s * s) - Answer::exact(1_020_000_000_000) * diameter
}

// 5. Method 1: E = 58 times exp(-((0.00823·D)·ln 10)).
fn emissive_power_1(diameter: Answer) -> Answer
    ensures { result ≡ chain.emissive_power_1 answers diameter }
{
    (Answer::exact(8_230_000_000) * diameter * Answer::ln_ten()).exp_neg() * 58
}

// pi·D·L + (pi·(D·D) over 4).
fn flame_surface(diameter: Answer, height: Answer) -> Answer
    ensures { result ≡ chain.flame_surface answers diameter height }
{
    let pi = Answer::pi();
    pi * diameter * height + pi * (diameter * diameter) / 4
}

// Method 2: f = 0.21 - 0.0034·D; E = (f·Q)/(pi·D·L + (pi·(D·D) over 4)).
fn emissive_power_2(diameter: Answer, heat: Answer, height: Answer) -> Answer
    ensures { result ≡ chain.emissive_power_2 answers diameter heat height }
{
    let fraction = Answer::exact(210_000_000_000) - Answer::exact(3_400_000_000) * diameter;
    fraction * heat / flame_surface(diameter, height)
}

// A flame over a pool: L and E.
#[derive(Clone, Copy)]
pub(crate) struct PoolFlame {
    pub(crate) height: Answer,
    pub(crate) power: Answer,
}

// 3 to 5. The flame by the method of the enquiry.
#[tactic(auto)]
pub(crate) fn flame(a: Allowed, diameter: Answer) -> PoolFlame
    requires { diameter ≡ chain.diameter_of answers a.enquiry }
    ensures { FlameOf a.enquiry result }
{
    let e = a.enquiry;
    let x = unabsorbed(e.absorption, diameter);
    match a.method {
        Method::ByDiameter => PoolFlame {
            height: flame_height(diameter, heat_release(e, x)),
            power: emissive_power_1(diameter),
        },
        Method::ByHeat => {
            let heat = heat_release(e, x);
            let height = flame_height(diameter, heat);
            PoolFlame {
                height,
                power: emissive_power_2(diameter, heat, height),
            }
        }
        Method::Smoky => PoolFlame {
            height: flame_height_3(diameter, froude_number(diameter, burning(e.rate as u64, x))),
            power: emissive_power_3(diameter),
        },
    }
}
