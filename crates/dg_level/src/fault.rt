// Why a query has no answer.
use dg_tree::TreeFault;
use dg_values::{OutOfMemory, Str};
use std::error::Error;
use std::fmt;

/// Why a query has no answer.
#[derive(Debug, Drop)]
pub enum RunFault {
    /// A sum is no number of 64 bits.
    SumOverflow {
        /// The variable.
        name: Str,
    },
    /// The answer has more bytes than one may have.
    TooLarge,
    /// There was not enough memory.
    OutOfMemory,
}

impl From<OutOfMemory> for RunFault {
    ghost use Rattle.std.specs.Prelude.{◌≡◌};
    ghost use Rattle.dg_level.specs.declared.fault.RunFault.TheVariants as faults;

    ghost from_gives = { λ _ fault. fault ≡ faults.OutOfMemory };

    fn from(_: OutOfMemory) -> Self {
        RunFault::OutOfMemory
    }
}

impl From<TreeFault> for RunFault {
    ghost use Rattle.dg_level.specs.Faults.{fault_of_tree};
    ghost use Rattle.std.specs.Prelude.{◌≡◌};

    ghost from_gives = { λ fault result. result ≡ fault_of_tree fault };

    fn from(fault: TreeFault) -> Self {
        match fault {
            TreeFault::OutOfMemory => RunFault::OutOfMemory,
            TreeFault::TooLarge => RunFault::TooLarge,
        }
    }
}

impl fmt::Display for RunFault {
    fn fmt<W: fmt::Write>(&self, f: &mut fmt::Formatter<W>) -> fmt::Result {
        match self {
            RunFault::SumOverflow { name } => {
                write!(f, "a sum over {name} is no number of 64 bits")
            }
            RunFault::TooLarge => write!(f, "the answer is too large"),
            RunFault::OutOfMemory => write!(f, "out of memory"),
        }
    }
}

impl Error for RunFault {}
