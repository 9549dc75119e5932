// Entries as they stand in memory: a chain, the newest entry first. What is large is boxed, and the records of commits and
// alters stand apart, so that a begin, an end or a look takes one small node.
use crate::Reason;
use dg_graph::Change;
use dg_schema::Schema;
use dg_values::{List, Str};

// What a commit has beside its record. Its keys are those by which its changes conflict over the graph at its start, so they
// stand in the oracle alone; and no predicate stands here where only that of the first change is named.
#[derive(Debug, Drop)]
pub struct Committed {
    pub start: u64,
    pub preds: List<Str>,
    pub changes: List<Change>,
}

// A commit that was refused.
#[derive(Debug, Drop)]
pub struct Refusal {
    pub start: u64,
    pub reason: Reason,
}

// What an alter has beside its record.
#[derive(Debug, Drop)]
pub struct Alteration {
    pub start: u64,
    pub newer: Schema,
}

// What happened, without the record.
#[derive(Debug, Drop)]
pub enum What {
    Begin {
        start: u64,
    },
    Commit(Box<Committed>),
    Refused(Box<Refusal>),
    End {
        start: u64,
    },
    Lease {
        top: u64,
        count: u64,
        first: u64,
    },
    Alter(Box<Alteration>),
    Line {
        line: u64,
    },
    Rolled {
        pred: Box<Str>,
        group: u32,
        upto: u64,
    },
    MoveStart {
        pred: Box<Str>,
        group: u32,
    },
    MoveCopied {
        pred: Str,
    },
    MoveHold {
        pred: Str,
    },
    Flip {
        pred: Box<Str>,
        until: u64,
    },
    MoveOff {
        pred: Str,
    },
    Look,
}

// What happened, and the number of the caller who made it happen.
#[derive(Debug, Drop)]
pub struct Kept {
    pub author: u32,
    pub what: What,
}

// The entries so far. At the foot stands how many timestamps were drawn before, which are seen and take no memory. A chain of
// many is let go in a loop, since each box's own drop would recurse.
#[derive(Debug)]
pub enum Chain {
    Spent(u64),
    After(Box<Chain>, Kept),
}

// With its bookkeeping the allocator gives a node 64 bytes, and a commit another 64.
const _: () = prove!(size_of::<Chain>() == 56);

const _: () = prove!(size_of::<Committed>() == 56);

impl Drop for Chain {
    fn drop(mut self) {
        loop {
            match self {
                Chain::Spent(_) => return,
                Chain::After(before, _) => self = Box::into_inner(before),
            }
        }
    }
}
