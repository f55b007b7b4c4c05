// Sheets of fuels, pools and targets: reading one, filling a lent slice with its answers, and the text that the desk prints.
// Each public function equals its definition in specs/ on all inputs.
#![tactic(auto)]

mod bytes;
pub mod fill;
mod layout;
pub mod reading;
pub mod report;
mod target;
mod text;
