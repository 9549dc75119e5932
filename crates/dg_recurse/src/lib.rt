//! What recursion over fetched edges shows of a node, as a text within a limit.
#![tactic(auto)]

mod blockers;
mod column;
mod laws;
mod near;
mod search;
mod text;
mod walk;
mod way;

pub use column::Column;
pub use laws::names_dont_matter;
pub use near::Reach;
pub use walk::{unfold, unfold_along};
pub use way::Way;
