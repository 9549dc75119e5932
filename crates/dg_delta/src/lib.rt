//! Operations on the postings of a list, layers of them, and what they make of a list.
#![tactic(auto)]

mod deciding;
mod layer;
mod merge;
mod op;
mod overlay;
mod owned;

pub use deciding::decide;
pub use layer::Layer;
pub use merge::merge_ops;
pub use op::Op;
pub use overlay::{apply, put_in};
pub use owned::apply_owned;
