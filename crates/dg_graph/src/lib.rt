//! A graph as a sorted list of triples, what changes make of it under a schema, and what is looked up in it.
#![tactic(auto)]

mod change;
mod fitting;
mod found;
mod graph;
mod indexed;
mod laws;
mod numbers;
mod plain;
mod runs;
mod snapshot;
mod subject;

pub use change::{Change, Triple};
pub use fitting::fits;
pub use graph::Graph;
pub use laws::{graphs, lists_of_graphs, look_ups};
pub use plain::Plain;
pub use snapshot::Snapshot;
pub use subject::{change_objects, is_of_subject, is_single, put_sole};
