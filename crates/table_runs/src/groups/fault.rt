// Why a row has no answer.
use dg_values::{OutOfMemory, ValueFault};
use std::alloc::{AllocError, AllocFailed};
use std::fmt;
use std::num::ParseIntError;

// Why a row has no answer.
#[derive(Clone, Copy, Debug)]
pub(crate) enum Fault {
    // The row can't be read, or names a call that may not be made.
    Unfit,
    // There was not enough memory.
    OutOfMemory,
}

pub(crate) type Answer<T> = Result<T, Fault>;

impl fmt::Display for Fault {
    fn fmt<W: fmt::Write>(&self, f: &mut fmt::Formatter<W>) -> fmt::Result {
        match self {
            Fault::Unfit => write!(f, "?"),
            Fault::OutOfMemory => write!(f, "out of memory"),
        }
    }
}

impl From<OutOfMemory> for Fault {
    fn from(_: OutOfMemory) -> Self {
        Fault::OutOfMemory
    }
}

impl From<AllocError> for Fault {
    fn from(_: AllocError) -> Self {
        Fault::OutOfMemory
    }
}

impl<T: Drop> From<AllocFailed<T>> for Fault {
    fn from(_: AllocFailed<T>) -> Self {
        Fault::OutOfMemory
    }
}

impl From<ParseIntError> for Fault {
    fn from(_: ParseIntError) -> Self {
        Fault::Unfit
    }
}

impl From<ValueFault> for Fault {
    fn from(fault: ValueFault) -> Self {
        match fault {
            ValueFault::BadLiteral => Fault::Unfit,
            ValueFault::OutOfMemory => Fault::OutOfMemory,
        }
    }
}
