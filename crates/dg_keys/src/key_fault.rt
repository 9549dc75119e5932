// Why no key was read.
use dg_values::OutOfMemory;
use std::error::Error;
use std::fmt;

/// Why no key was read.
#[derive(Clone, Copy, Debug, PartialEq, Eq)]
pub enum KeyFault {
    /// There was not enough memory for the key.
    OutOfMemory,
    /// No key has the bytes.
    NoKey,
}

impl fmt::Display for KeyFault {
    fn fmt<W: fmt::Write>(&self, f: &mut fmt::Formatter<W>) -> fmt::Result {
        match self {
            KeyFault::OutOfMemory => write!(f, "out of memory"),
            KeyFault::NoKey => write!(f, "no key has these bytes"),
        }
    }
}

impl Error for KeyFault {}

/// Want of memory is a fault of its own.
impl From<OutOfMemory> for KeyFault {
    ghost use Rattle.std.specs.Prelude.{◌≡◌};
    ghost use Rattle.dg_keys.specs.declared.key_fault.KeyFault.TheVariants as faults;

    ghost from_gives = { λ memory fault. fault ≡ faults.OutOfMemory };

    fn from(_: OutOfMemory) -> KeyFault {
        KeyFault::OutOfMemory
    }
}
