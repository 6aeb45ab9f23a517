//! What the duty program prints for the bytes of its input.
#![tactic(auto)]

mod calls;
mod lines;
pub mod record;
