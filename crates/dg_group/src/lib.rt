//! Groups: what a group holds of its tablets, and what the records of a history make of that.
//!
//! A group has a copy of each of its tablets: posting lists by their keys, a mark up to which they are merged, and for a copy
//! that was moved away the last timestamp at which it is read. It has no lock of its own. Pins share what it holds and never
//! change.
#![tactic(auto)]

mod applying;
mod copied;
mod group;
mod laws;
mod pinned;

pub use group::GroupState;
pub use laws::{entries_of_histories, records_of_histories};
pub use pinned::Pinned;
