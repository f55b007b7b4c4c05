// Request 10 of document 02: the control room's register of burning pools, and the sums of what they send to one target.
// Each public operation equals its definition in specs/ on all inputs.
#![tactic(auto)]

pub mod calls;
pub mod places;
pub mod sums;
