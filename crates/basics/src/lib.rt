//! What the layers share: books of entries, one search under a number, and sets of routes.
#![tactic(auto)]

pub mod book;
pub mod lookup;
pub mod route_set;
