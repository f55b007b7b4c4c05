// Planning from a permitted flux: the stand-off of request 7 of document 02, and the first free place of request 9.
// Each public function equals its definition in specs/ on all inputs.
#![tactic(auto)]

mod distance;
pub mod free_place;
pub mod grid;
pub mod scenario;
pub mod stand_off;
