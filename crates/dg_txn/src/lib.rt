//! Transactions: a graph that is read from pins, and own changes on top of it.
//!
//! A transaction holds its start, the schema and the owners there and a pin of each group, so nothing that is committed, merged
//! or moved afterwards changes what it reads. Its own changes are kept in their order, and also as what each list gains
//! and loses by them, so a read costs by the operations on its own list.
#![tactic(auto)]

mod composing;
mod existing;
mod gains;
mod laws;
mod lookups;
mod offer;
mod overlay;
mod present;
mod reads;
mod span;
mod txn;
mod walk;

pub use laws::{current_pins, pinned_graphs};
pub use present::Present;
pub use txn::Txn;
