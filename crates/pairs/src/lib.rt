// Rounded pairs of trillionths and the series on them: document 01, "Pairs of trillionths" and "Series".
// Each public operation equals its definition in specs/Answers.antt on all inputs.
#![tactic(auto)]

pub mod answer;
pub mod arc;
pub mod atan;
pub mod constants;
pub mod difference;
mod division;
pub mod exp_neg;
pub mod fifth_root;
pub mod h_series;
pub mod over;
pub mod product;
pub mod quotient;
pub mod root;
mod series;
pub mod sum;
pub mod times;
mod unit;
