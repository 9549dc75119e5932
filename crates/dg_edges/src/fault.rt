// Why a mutation isn't resolved.
ghost use Rattle.std.specs.Prelude.{◌≡◌};

use dg_values::{OutOfMemory, Str};
use std::alloc::{AllocError, AllocFailed};

/// Why a mutation isn't resolved. Each fault but want of memory names the predicate of the first statement that has one.
#[derive(Debug, Drop)]
pub enum EdgeFault {
    /// There is not enough memory.
    OutOfMemory,
    /// The predicate isn't declared.
    NoPredicate { pred: Str },
    /// A node stands on a predicate of values, or a literal on one of nodes.
    WrongObject { pred: Str },
    /// The literal's text is no value of its own type, or none of the predicate's kind.
    BadLiteral { pred: Str },
}

/// Want of memory is a fault of its own.
impl From<OutOfMemory> for EdgeFault {
    ghost use Rattle.dg_edges.specs.declared.fault.EdgeFault.TheVariants as faults;

    ghost from_gives = { λ memory fault. fault ≡ faults.OutOfMemory };

    fn from(_: OutOfMemory) -> EdgeFault {
        EdgeFault::OutOfMemory
    }
}

/// Want of memory is a fault of its own.
impl From<AllocError> for EdgeFault {
    ghost use Rattle.dg_edges.specs.declared.fault.EdgeFault.TheVariants as faults;

    ghost from_gives = { λ memory fault. fault ≡ faults.OutOfMemory };

    fn from(_: AllocError) -> EdgeFault {
        EdgeFault::OutOfMemory
    }
}

/// What could not be put in is let go.
impl<T: Drop> From<AllocFailed<T>> for EdgeFault {
    ghost use Rattle.dg_edges.specs.declared.fault.EdgeFault.TheVariants as faults;

    ghost from_gives = { λ failed fault. fault ≡ faults.OutOfMemory };

    fn from(_: AllocFailed<T>) -> EdgeFault {
        EdgeFault::OutOfMemory
    }
}
