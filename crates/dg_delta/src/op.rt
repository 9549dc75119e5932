// What a commit does to one posting of a list.
ghost use Rattle.std.specs.Prelude.{◌≡◌, ◌++◌, IfOk, OnOk};
ghost use Rattle.dg_delta.specs.Ops.{posting_of};
ghost use Rattle.dg_delta.specs.Effects.{is_set, put_by};

use dg_values::{Mem, OutOfMemory, Posting};
use std::alloc::Global;

/// Puts a posting into a list, or takes it out.
#[derive(Debug, Drop)]
pub enum Op {
    /// The posting is in the list from then on.
    Set(Posting),
    /// The posting isn't in the list from then on.
    Del(Posting),
}

impl Op {
    /// What is put in or taken out.
    pub fn posting(&self) -> &Posting
        ensures { result.now ≡ posting_of self.now }
    {
        match self {
            Op::Set(posting) => posting,
            Op::Del(posting) => posting,
        }
    }

    /// Whether the posting is put in.
    pub fn is_set(&self) -> bool
        ensures { result ≡ is_set self.now }
    {
        matches!(self, Op::Set(_))
    }

    /// An equal operation. The error is want of memory.
    pub fn copy(&self, alloc: Global) -> Mem<Op>
        ensures { IfOk result (λ op. op ≡ self.now) }
    {
        match self {
            Op::Set(posting) => Ok(Op::Set(posting.copy(alloc)?)),
            Op::Del(posting) => Ok(Op::Del(posting.copy(alloc)?)),
        }
    }

    // Adds at the end what is put in.
    pub(crate) fn put_into(&self, alloc: Global, postings: &mut Vec<Posting>) -> Mem<()>
        ensures { OnOk result (postings.new.items ≡ postings.old.items ++ put_by self.now) }
    {
        if let Op::Set(posting) = self {
            postings.push(posting.copy(alloc)?)?;
        }
        Ok(())
    }
}
