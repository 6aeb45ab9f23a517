//! Plan sheets: what a plan says, and how a sheet of bytes is read into one.
#![tactic(auto)]

mod bit_writer;
mod bits;
mod coded;
pub mod fault;
pub mod hostility;
pub mod layout;
pub mod plan;
pub mod questions;
pub mod reader;
mod rules;
pub mod survey;
pub mod worked;
pub mod writer;
