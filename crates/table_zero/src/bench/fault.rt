// Why something isn't measured.
use dg_oracle::OracleFault;
use dg_schema::SchemaFault;
use dg_values::OutOfMemory;
use dg_zero::ZeroFault;
use std::alloc::{AllocError, AllocFailed};
use std::error::Error;
use std::fmt;

// Why a call isn't made, or is refused.
#[derive(Clone, Copy, Debug)]
pub(crate) enum Fault {
    // There was not enough memory.
    OutOfMemory,
    // What a call asks for doesn't hold, or it is refused.
    Refused,
    // The process doesn't say how much memory it has.
    Untold,
}

impl fmt::Display for Fault {
    fn fmt<W: fmt::Write>(&self, f: &mut fmt::Formatter<W>) -> fmt::Result {
        match self {
            Fault::OutOfMemory => write!(f, "out of memory"),
            Fault::Refused => write!(f, "a call is refused"),
            Fault::Untold => write!(f, "the memory isn't told"),
        }
    }
}

impl Error for Fault {}

impl From<OutOfMemory> for Fault {
    fn from(_: OutOfMemory) -> Self {
        Fault::OutOfMemory
    }
}

impl From<AllocError> for Fault {
    fn from(_: AllocError) -> Self {
        Fault::OutOfMemory
    }
}

impl<T: Drop> From<AllocFailed<T>> for Fault {
    fn from(_: AllocFailed<T>) -> Self {
        Fault::OutOfMemory
    }
}

impl From<OracleFault> for Fault {
    fn from(fault: OracleFault) -> Self {
        match fault {
            OracleFault::OutOfMemory => Fault::OutOfMemory,
            OracleFault::TimestampsSpent { .. } => Fault::Refused,
        }
    }
}

impl From<SchemaFault> for Fault {
    fn from(fault: SchemaFault) -> Self {
        match fault {
            SchemaFault::OutOfMemory => Fault::OutOfMemory,
            SchemaFault::SchemaSyntax { .. } => Fault::Refused,
        }
    }
}

impl From<ZeroFault> for Fault {
    fn from(fault: ZeroFault) -> Self {
        if let ZeroFault::OutOfMemory = fault {
            return Fault::OutOfMemory;
        }
        Fault::Refused
    }
}
