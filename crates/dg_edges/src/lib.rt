//! Mutations checked against a schema and made into changes, and the making of offers: what changes make of posting
//! lists, and the keys by which they conflict.
#![tactic(auto)]

mod altering;
mod conflicts;
mod deltas;
mod differing;
mod edge;
mod expanding;
mod fault;
mod filing;
mod fitting;
mod gathering;
mod joining;
mod laws;
mod lists;
mod names;
mod numbers;
mod offer;
mod replaced;
mod rereading;
mod resolving;
mod touched;

pub use altering::schema_deltas;
pub use conflicts::{conflict_keys, preds_of};
pub use deltas::deltas_of;
pub use differing::between;
pub use edge::{Edge, Named, Resolved, Target};
pub use expanding::expand;
pub use fault::EdgeFault;
pub use fitting::are_fitting;
pub use laws::{
    changes_as_parts, commits_as_changes, exact_histories, mutations, named_triples, offers,
};
pub use offer::{copies, offer_of};
pub use resolving::resolve;
