// Why a call is refused.
ghost use Rattle.std.specs.Prelude.{◌≡◌};

use crate::{Offer, Phase};
use dg_keys::ConflictKey;
use dg_oracle::OracleFault;
use dg_values::{OutOfMemory, Str};

/// Why a call is refused. Faults of a tablet's move leave out the predicate, which the caller handed in.
#[derive(Debug, Drop)]
pub enum ZeroFault {
    /// There is not enough memory.
    OutOfMemory,
    /// The next timestamp would be 2^62, which is none; `next` is the next one.
    TimestampsSpent { next: u64 },
    /// So many nodes aren't left; `next` is the next one.
    UidsSpent { next: u64 },
    /// A transaction is active; `start` is the least such start.
    Pending { start: u64 },
    /// The tablet of this predicate is held.
    Moving { pred: Str },
    /// There is no such group.
    NoGroup { group: u32 },
    /// The group is the owner.
    SameGroup { group: u32 },
    /// The tablet is moving.
    AlreadyMoving,
    /// The group keeps an old copy, which may be read up to `until`.
    OldCopy { group: u32, until: u64 },
    /// The tablet is in another phase.
    NotMoving { phase: Phase },
    /// The predicate isn't declared.
    NoPredicate,
}

/// Why a commit is refused. What may be offered again comes back.
#[derive(Debug, Drop)]
pub enum CommitFault {
    /// There is not enough memory; the transaction is still active.
    OutOfMemory {
        offer: Offer,
    },
    /// The tablet of this predicate is held; the transaction is ended.
    Moving {
        pred: Str,
    },
    /// This key was committed above the start, last at `ts`, and `text` names it; the transaction is ended.
    Conflict {
        key: ConflictKey,
        text: Str,
        ts: u64,
    },
    /// The next timestamp would be 2^62, which is none; the transaction is still active.
    TimestampsSpent {
        next: u64,
        offer: Offer,
    },
}

/// Want of memory is a fault of its own.
impl From<OutOfMemory> for ZeroFault {
    ghost use Rattle.dg_zero.specs.declared.fault.ZeroFault.TheVariants as faults;

    ghost from_gives = { λ memory zero. zero ≡ faults.OutOfMemory };

    fn from(_: OutOfMemory) -> ZeroFault {
        ZeroFault::OutOfMemory
    }
}

/// A draw that is refused is a fault of the call.
impl From<OracleFault> for ZeroFault {
    ghost use Rattle.dg_zero.specs.States.{fault_of};

    ghost from_gives = { λ fault zero. zero ≡ fault_of fault };

    fn from(fault: OracleFault) -> ZeroFault {
        match fault {
            OracleFault::OutOfMemory => ZeroFault::OutOfMemory,
            OracleFault::TimestampsSpent { next } => ZeroFault::TimestampsSpent { next },
        }
    }
}
