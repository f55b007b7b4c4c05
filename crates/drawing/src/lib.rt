// Figures for the drawing program, whose host works in 64-bit floats: request 4 of document 02.
// Each public function equals its definition in specs/ on all inputs.
#![tactic(auto)]

mod answers;
pub mod figures;
pub mod groups;
pub mod lent;
