// Steps 1 to 8 of document 01: the radiant flux at a target, and the configuration factor alone.
// Each public operation equals its definition in specs/ on all inputs.
#![tactic(auto)]

mod allowed;
mod answer;
pub mod enquiry;
pub mod factor;
pub mod flux;
mod kinds;
mod pool;
mod smoky;
