//! The block: the consents of a line between a station and a signal box, behind one interface, and two makes of it.
#![tactic(auto)]

mod consents;
pub mod fault;
pub mod interface;
mod key;
pub mod key_cabinet;
mod line;
mod scan;
mod token;
pub mod wire_pair;
