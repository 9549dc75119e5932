// What a history is made of.
use dg_graph::Change;
use dg_keys::{ConflictKey, Record};
use dg_schema::Schema;
use dg_values::{List, Str};

/// Why a commit was refused.
#[derive(Debug, Drop)]
pub enum Reason {
    /// The tablet of this predicate was held.
    Moving { pred: Str },
    /// This key was committed at this timestamp, above the transaction's start.
    Conflict { key: ConflictKey, ts: u64 },
}

/// What happened. A commit and an alter hold the record that groups are to apply, with its timestamp.
#[derive(Debug, Drop)]
pub enum Event {
    /// A transaction began.
    Begin {
        start: u64,
    },
    /// The transaction with this start committed: its predicates, its conflict keys, its changes as they were asked for, and
    /// what posting lists gain and lose by them.
    Commit {
        start: u64,
        preds: List<Str>,
        keys: List<ConflictKey>,
        changes: List<Change>,
        written: Record,
    },
    /// The commit of the transaction with this start was refused, which ended it.
    Refused {
        start: u64,
        reason: Reason,
    },
    /// The transaction with this start ended.
    End {
        start: u64,
    },
    /// Nodes were leased: `count` from `first` on, above `top` and all that were leased before.
    Lease {
        top: u64,
        count: u64,
        first: u64,
    },
    /// Definitions were added or replaced, at the record's timestamp.
    Alter {
        start: u64,
        newer: Schema,
        written: Record,
    },
    /// The purge line was advanced.
    Line {
        line: u64,
    },
    /// A group's copy of a tablet was merged up to a timestamp.
    Rolled {
        pred: Str,
        group: u32,
        upto: u64,
    },
    /// The move of a tablet to a group was started.
    MoveStart {
        pred: Str,
        group: u32,
    },
    /// The new group was given a copy.
    MoveCopied {
        pred: Str,
    },
    /// The tablet was held.
    MoveHold {
        pred: Str,
    },
    /// The new group became the owner; the old one's copy may be read up to a timestamp.
    Flip {
        pred: Str,
        until: u64,
    },
    /// The move was called off.
    MoveOff {
        pred: Str,
    },
    /// Nothing changed.
    Look,
}

/// What happened, and the number of the caller who made it happen.
#[derive(Debug, Drop)]
pub struct Entry {
    pub author: u32,
    pub event: Event,
}
