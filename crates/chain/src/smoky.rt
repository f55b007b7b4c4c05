// Method 3: the flame of a smoky fuel, and its emissive power.
#![tactic(auto, unfolding(pairs::specs::Answers::constant, pairs::specs::Answers::fitting, pairs::specs::Rounded::constant, crate::specs::Chain::froude_number, crate::specs::Chain::power_61_hundredths, crate::specs::Chain::flame_height_3, crate::specs::Chain::unobscured, crate::specs::Chain::emissive_power_3))]

ghost use Rattle.std.specs.Prelude.{◌≡◌};
ghost use Rattle.pairs.specs.Answers.{answers};
ghost use Rattle.chain.specs.Chain as chain;

use super::answer::Answer;

// w = M/(1.2·root(9.81·D)).
pub(crate) fn froude_number(diameter: Answer, burning: Answer) -> Answer
    ensures { result ≡ chain.froude_number answers diameter burning }
{
    let speed = (Answer::exact(9_810_000_000_000) * diameter).root();
    burning / (Answer::exact(1_200_000_000_000) * speed)
}

// The 0.61 power of w: two roots, two fifth roots, 61 equal factors.
fn power_61_hundredths(w: Answer) -> Answer
    ensures { result ≡ chain.power_61_hundredths answers w }
{
    let b = w.root().root().fifth_root().fifth_root();
    let mut p = b;
    for _ in 0..60u64 {
        p = p * b;
    }
    p
}

// L = (42 times D)·p.
pub(crate) fn flame_height_3(diameter: Answer, froude: Answer) -> Answer
    ensures { result ≡ chain.flame_height_3 answers diameter froude }
{
    diameter * 42 * power_61_hundredths(froude)
}

// E = (140 times X2) + (20 times (1-X2)), where X2 = exp(-(0.2·D)).
pub(crate) fn emissive_power_3(diameter: Answer) -> Answer
    ensures { result ≡ chain.emissive_power_3 answers diameter }
{
    let x = (Answer::exact(200_000_000_000) * diameter).exp_neg();
    x * 140 + (Answer::exact(1_000_000_000_000) - x) * 20
}
