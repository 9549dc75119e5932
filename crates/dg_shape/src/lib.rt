//! What lists of nodes and their trees become: put in order, cut to a page, cut by a cascade, as they are shown, and as flat objects.
#![tactic(auto)]

mod cascading;
mod copying;
mod counting;
mod flats;
mod flattening;
mod keys;
mod laws;
mod moves;
mod normalizing;
mod ordering;
mod paging;
mod stripping;
mod tallies;
mod writing;

pub use cascading::cascade;
pub use laws::{nodes_are_cut_by_field, nodes_are_shown_by_field};
pub use normalizing::normalize;
pub use ordering::{Key, order};
pub use paging::page;
pub use stripping::strip;
