// Why something isn't measured.
use std::error::Error;
use std::fmt;

// Why a script isn't measured.
#[derive(Clone, Copy, Debug)]
pub(crate) enum Fault {
    // It wasn't answered to its end.
    Unanswered,
    // The process doesn't say how much memory it has.
    Untold,
}

impl fmt::Display for Fault {
    fn fmt<W: fmt::Write>(&self, f: &mut fmt::Formatter<W>) -> fmt::Result {
        match self {
            Fault::Unanswered => write!(f, "a script wasn't answered to its end"),
            Fault::Untold => write!(f, "the memory isn't told"),
        }
    }
}

impl Error for Fault {}
