//! Posting lists: a base that never changes, and layers of committed operations above it.
#![tactic(auto)]

mod applying;
mod covering;
mod deciding;
mod gathered;
mod plist;
mod ranked;

pub use plist::PList;
