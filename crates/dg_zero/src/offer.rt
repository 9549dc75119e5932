// What a transaction offers to commit.
use dg_graph::Change;
use dg_keys::{ConflictKey, Part};
use dg_values::{List, Str};

/// What a transaction offers to commit.
#[derive(Debug, Drop)]
pub struct Offer {
    /// The transaction's start.
    pub start: u64,
    /// The predicates that it changes, and maybe others.
    pub preds: List<Str>,
    /// Its conflict keys, ascending.
    pub keys: List<ConflictKey>,
    /// Its changes in the order in which they were asked for, which the history keeps.
    pub changes: List<Change>,
    /// What becomes of posting lists by them, ascending by key.
    pub parts: List<Part>,
}
