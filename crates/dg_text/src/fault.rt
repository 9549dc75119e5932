// Why a text has no tokens.
use std::error::Error;
use std::fmt;

/// Why a text has no tokens.
#[derive(Clone, Copy, Debug, PartialEq, Eq)]
pub enum LexFault {
    /// There is no memory for the tokens.
    OutOfMemory,
    /// The byte at `offset` is the first that begins no token, blank or comment.
    BadToken { offset: u32 },
}

impl fmt::Display for LexFault {
    fn fmt<W: fmt::Write>(&self, f: &mut fmt::Formatter<W>) -> fmt::Result {
        match self {
            LexFault::OutOfMemory => write!(f, "out of memory"),
            LexFault::BadToken { offset } => write!(f, "no token starts at byte {offset}"),
        }
    }
}

impl Error for LexFault {}
