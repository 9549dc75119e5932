// Why a text is no schema.
use std::error::Error;
use std::fmt;

/// Why a text is no schema.
#[derive(Clone, Copy, Debug, PartialEq, Eq)]
pub enum SchemaFault {
    /// There is no memory for the definitions.
    OutOfMemory,
    /// The grammar doesn't allow a token, or a byte that begins none, on this line, counted from 1.
    SchemaSyntax { line: u32 },
}

impl fmt::Display for SchemaFault {
    fn fmt<W: fmt::Write>(&self, f: &mut fmt::Formatter<W>) -> fmt::Result {
        match self {
            SchemaFault::OutOfMemory => write!(f, "out of memory"),
            SchemaFault::SchemaSyntax { line } => write!(f, "no schema by line {line}"),
        }
    }
}

impl Error for SchemaFault {}
