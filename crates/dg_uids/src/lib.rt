//! Sets of nodes, as strictly ascending lists of their uids.
#![tactic(auto)]

mod differences;
mod intersections;
mod pages;
mod sides;
mod uids;
mod unions;

pub use uids::Uids;
