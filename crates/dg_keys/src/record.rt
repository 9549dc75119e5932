// What a commit or an alter makes of posting lists.
use crate::Key;
use dg_delta::Op;
use dg_values::{List, Str};

/// The operations on one posting list.
#[derive(Debug, Drop)]
pub struct Part {
    /// The list.
    pub key: Key,
    /// One for each posting that changes, ascending by posting.
    pub ops: List<Op>,
}

/// A predicate and the group that owns it.
#[derive(Debug, Drop)]
pub struct Tablet {
    /// The predicate's name.
    pub pred: Str,
    /// The group, from 1 on.
    pub group: u32,
}

/// What is new at a timestamp: what groups apply.
#[derive(Debug, Drop)]
pub struct Record {
    /// The timestamp of the commit or the alter.
    pub ts: u64,
    /// The tablets of predicates that weren't declared before.
    pub fresh: List<Tablet>,
    /// What becomes of posting lists, ascending by key.
    pub parts: List<Part>,
}
