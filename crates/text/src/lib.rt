//! Text work that the programs share: lines, a sheet in hex, numbers in decimal, the line of a refused sheet.
#![tactic(auto)]

pub mod answers;
mod hex;
pub mod input;
pub mod lines;
pub mod numbers;
