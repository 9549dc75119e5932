// Operations with what they are sorted by first.
ghost use Rattle.std.specs.Prelude.{◌≡◌, ◌++◌, IfOk, OnOk};
ghost use Rattle.dg_values.specs.Order.{posting_cmp};
ghost use Rattle.dg_delta.specs.Ops.{posting_of, op_cmp};
ghost use Rattle.dg_delta.specs.Effects.{put_by};
ghost use Rattle.dg_list.specs.Ranks.{IsRank};

use dg_delta::Op;
use dg_values::{Mem, OutOfMemory, Posting, cmp_posting};
use std::alloc::Global;
use std::cmp::Ordering;
use std::marker::Model;

// An operation of a layer with the rank of its posting and whether it puts that in, so that operations on nodes are sorted
// and applied without a second look at the layers, which lie apart in memory. Contracts see the operation.
#[derive(Drop)]
pub(crate) struct Ranked<'a> {
    rank: u64,
    set: bool,
    op: &'a Op,
}

impl<'a> Model for Ranked<'a> {
    ghost use Rattle.dg_delta.specs.declared.op.Op.{Op};
    ghost use Rattle.dg_list.specs.Ranks.{AreKeptOf};

    ghost Value = { Op };

    ghost view = { λ ranked. ranked.op.now };

    ghost invariant = { λ ranked. AreKeptOf ranked.rank ranked.set ranked.op.now };
}

impl<'a> Ranked<'a> {
    // The operation with what is kept beside it.
    pub(crate) fn new(op: &'a Op) -> Ranked<'a>
        ensures { result ≡ op.now }
    {
        Ranked {
            rank: rank(op.posting()),
            set: op.is_set(),
            op,
        }
    }

    // In the order of the postings: by rank, and values by themselves.
    pub(crate) fn compare(&self, other: &Ranked<'a>) -> Ordering
        ensures { result ≡ op_cmp self.now other.now }
    {
        if self.rank == u64::MAX && other.rank == u64::MAX {
            return cmp_posting(self.op.posting(), other.op.posting());
        }
        self.rank.cmp(&other.rank)
    }

    // In the order of the postings: by rank, and values by themselves.
    pub(crate) fn compare_to(&self, posting: &Posting) -> Ordering
        ensures { result ≡ posting_cmp (posting_of self.now) posting.now }
    {
        let other = rank(posting);
        if self.rank == u64::MAX && other == u64::MAX {
            return cmp_posting(self.op.posting(), posting);
        }
        self.rank.cmp(&other)
    }

    // Adds at the end what is put in.
    pub(crate) fn put_into(&self, alloc: Global, list: &mut Vec<Posting>) -> Mem<()>
        ensures { OnOk result (list.new.items ≡ list.old.items ++ put_by self.now) }
    {
        if self.set {
            list.push(self.posting(alloc)?)?;
        }
        Ok(())
    }

    // What is put in or taken out: a node by its rank, and a copy of a value.
    fn posting(&self, alloc: Global) -> Mem<Posting>
        ensures { IfOk result (λ posting. posting ≡ posting_of self.now) }
    {
        if self.rank == u64::MAX {
            return self.op.posting().copy(alloc);
        }
        Ok(Posting::Uid(self.rank))
    }
}

// A node's number. Values come after all nodes, so they have the greatest.
fn rank(posting: &Posting) -> u64
    ensures { IsRank result posting.now }
{
    match posting {
        Posting::Uid(node) => *node,
        Posting::Val(_) => u64::MAX,
    }
}
