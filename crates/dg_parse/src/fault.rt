// Why a text is no query.
use std::error::Error;
use std::fmt;

/// Why a text is no query, or no upsert block. Offsets are in bytes from the start of the text.
#[derive(Clone, Copy, Debug, PartialEq, Eq)]
pub enum DqlFault {
    /// There is no memory for what it says.
    OutOfMemory,
    /// The byte at `offset` is the first that begins no token, blank or comment.
    BadToken { offset: u32 },
    /// The token at `offset` is the first after which more than 32 of `{`, `(` and `[` stand open.
    TooDeep { offset: u32 },
    /// The grammar, or a case beside it, doesn't allow the token at `offset`, or the end of the text.
    BadSyntax { offset: u32 },
}

/// It prints what is wrong, with its offset in decimal digits.
impl fmt::Display for DqlFault {
    ghost use Rattle.std.specs.Prelude.{Some};
    ghost use Rattle.dg_parse.specs.Texts.{fault_text};

    ghost output = { λ f. Some (fault_text f) };

    fn fmt<W: fmt::Write>(&self, f: &mut fmt::Formatter<W>) -> fmt::Result {
        match self {
            DqlFault::OutOfMemory => write!(f, "out of memory"),
            DqlFault::BadToken { offset } => write!(f, "no token starts at byte {offset}"),
            DqlFault::TooDeep { offset } => {
                write!(f, "too many brackets are open at byte {offset}")
            }
            DqlFault::BadSyntax { offset } => write!(f, "no query by byte {offset}"),
        }
    }
}

impl Error for DqlFault {}
