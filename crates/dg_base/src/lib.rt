//! Ascending lists of postings that never change, with their nodes packed.
#![tactic(auto)]

mod base;
mod laws;
mod nodes;
mod packing;
mod reading;

pub use base::Base;
pub use laws::packed_numbers_are_read_back;
