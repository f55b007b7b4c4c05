// Request 12 of document 02: which burning pools put the sum of lows over a limit. The public operation equals its definition in specs/ on
// all inputs.
#![tactic(auto)]

mod ranking;
pub mod which_pools;
