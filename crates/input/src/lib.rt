// What the programs share: standard input into a lent buffer, and sheets in hexadecimal, one to a line.
#![tactic(auto)]

pub mod buffer;
pub mod sheets;
