//! The frame: a board under a plan and over a block of any make, its calls, lists of calls, and the law of a duty.
#![tactic(auto)]

pub mod call;
pub mod duty;
pub mod entry;
pub mod frame;
pub mod questions;
