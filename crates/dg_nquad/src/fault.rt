// Why a text is no mutation.
use std::error::Error;
use std::fmt;

/// Why a text is no mutation.
#[derive(Clone, Copy, Debug, PartialEq, Eq)]
pub enum NquadFault {
    /// There is no memory for the statements.
    OutOfMemory,
    /// The byte at `offset` is the first that begins no token, blank or comment.
    BadToken { offset: u32 },
    /// The grammar doesn't allow the token at `offset`, or the end of the text.
    BadSyntax { offset: u32 },
}

impl fmt::Display for NquadFault {
    fn fmt<W: fmt::Write>(&self, f: &mut fmt::Formatter<W>) -> fmt::Result {
        match self {
            NquadFault::OutOfMemory => write!(f, "out of memory"),
            NquadFault::BadToken { offset } => write!(f, "no token starts at byte {offset}"),
            NquadFault::BadSyntax { offset } => write!(f, "no mutation by byte {offset}"),
        }
    }
}

impl Error for NquadFault {}
