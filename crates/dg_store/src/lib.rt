//! Posting lists by their keys.
#![tactic(auto)]

mod parts;
mod store;

pub use parts::parts_of;
pub use store::Store;
