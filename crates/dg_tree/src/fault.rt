// Why a tree has no text.
use dg_values::OutOfMemory;
use std::error::Error;
use std::fmt;

/// Why trees have no text.
#[derive(Clone, Copy, Debug, PartialEq, Eq)]
pub enum TreeFault {
    /// There is no memory for the text.
    OutOfMemory,
    /// The text has more bytes than an answer may have.
    TooLarge,
}

impl From<OutOfMemory> for TreeFault {
    ghost use Rattle.std.specs.Prelude.{◌≡◌};
    ghost use Rattle.dg_tree.specs.declared.fault.TreeFault.TheVariants as faults;

    ghost from_gives = { λ _ fault. fault ≡ faults.OutOfMemory };

    fn from(_: OutOfMemory) -> Self {
        TreeFault::OutOfMemory
    }
}

impl fmt::Display for TreeFault {
    fn fmt<W: fmt::Write>(&self, f: &mut fmt::Formatter<W>) -> fmt::Result {
        match self {
            TreeFault::OutOfMemory => write!(f, "out of memory"),
            TreeFault::TooLarge => write!(f, "the answer is too large"),
        }
    }
}

impl Error for TreeFault {}
