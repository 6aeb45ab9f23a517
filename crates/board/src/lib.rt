//! The board: points, route levers, fields and signal levers, what each may do under a plan, and what is answered.
#![tactic(auto)]

pub mod answer;
pub mod board;
pub mod calls;
pub mod scans;
