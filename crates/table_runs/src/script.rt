// A script that is made row by row.
use crate::fields::{RowFault, bytes_of, hex_bytes_of};
use std::alloc::{AllocError, Global};

/// The rows of a script, its bytes, and what its run wrote, if it has run.
#[derive(Drop)]
pub struct Script {
    rows: Vec<String>,
    bytes: Vec<u8>,
    written: Option<Vec<u8>>,
}

impl Script {
    pub fn new(alloc: Global) -> Self {
        Script {
            rows: Vec::new(alloc),
            bytes: Vec::new(alloc),
            written: None,
        }
    }

    /// Adds a row and its bytes. A script that has run is let go first.
    pub fn add(&mut self, alloc: Global, row: &str, bytes: &[u8]) -> Result<(), AllocError> {
        if self.written.is_some() {
            *self = Script::new(alloc);
        }
        self.rows.push(String::from_str(alloc, row)?)?;
        self.bytes.extend_from_slice(bytes)
    }

    pub fn rows(&self) -> &[String] {
        self.rows.as_slice()
    }

    pub fn bytes(&self) -> &[u8] {
        self.bytes.as_slice()
    }

    /// The script has run, and wrote these bytes. Its rows are let go.
    pub fn ran(&mut self, written: Vec<u8>) {
        self.rows.clear();
        self.written = Some(written);
    }

    /// What its run wrote.
    pub fn written(&self) -> Option<&[u8]> {
        match &self.written {
            Some(written) => Some(written.as_slice()),
            None => None,
        }
    }
}

/// The bytes that a row adds to a script: a frame with a body in one of four forms, a frame without a body, or bytes as
/// they are.
pub fn bytes_of_row(alloc: Global, table: &str, said: &[&str]) -> Result<Vec<u8>, RowFault> {
    match table {
        "frame" => frame(alloc, said),
        "hex" => hex_frame(alloc, said),
        "filled" => filled_frame(alloc, said),
        "repeated" => repeated_frame(alloc, said),
        _ => raw(alloc, said),
    }
}

// `frame | LINE`, or `frame | LINE WITHOUT THE LENGTH | BODY`
fn frame(alloc: Global, said: &[&str]) -> Result<Vec<u8>, RowFault> {
    match said {
        [line] => Ok(format!(in alloc; "{line}\n")?.into_bytes()),
        [line, body] => framed(alloc, line, &bytes_of(alloc, body)?),
        _ => Err(RowFault::Unreadable),
    }
}

// `hex | LINE WITHOUT THE LENGTH | BODY IN HEXADECIMAL`
fn hex_frame(alloc: Global, said: &[&str]) -> Result<Vec<u8>, RowFault> {
    let [line, body] = said else {
        return Err(RowFault::Unreadable);
    };
    framed(alloc, line, &hex_bytes_of(alloc, body)?)
}

// `filled | LINE WITHOUT THE LENGTH | BODY | COUNT`: so many letters stand in the body's place …
fn filled_frame(alloc: Global, said: &[&str]) -> Result<Vec<u8>, RowFault> {
    let [line, body, count] = said else {
        return Err(RowFault::Unreadable);
    };
    let Some((front, back)) = body.split_once('…') else {
        return Err(RowFault::Unreadable);
    };
    let mut bytes = bytes_of(alloc, front)?;
    bytes.extend_from_slice(&vec![in alloc; b'a'; count.parse::<usize>()?]?)?;
    bytes.extend_from_slice(&bytes_of(alloc, back)?)?;
    framed(alloc, line, &bytes)
}

// `repeated | LINE WITHOUT THE LENGTH | BODY | COUNT | PIECE`: the piece stands so often in the body's place …
fn repeated_frame(alloc: Global, said: &[&str]) -> Result<Vec<u8>, RowFault> {
    let [line, body, count, piece] = said else {
        return Err(RowFault::Unreadable);
    };
    let Some((front, back)) = body.split_once('…') else {
        return Err(RowFault::Unreadable);
    };
    let piece = bytes_of(alloc, piece)?;
    let mut bytes = bytes_of(alloc, front)?;
    let count = count.parse::<usize>()?;
    for _turn in 0..count {
        bytes.extend_from_slice(&piece)?;
    }
    bytes.extend_from_slice(&bytes_of(alloc, back)?)?;
    framed(alloc, line, &bytes)
}

// `raw | BYTES`
fn raw(alloc: Global, said: &[&str]) -> Result<Vec<u8>, RowFault> {
    match said {
        [bytes] => Ok(bytes_of(alloc, bytes)?),
        _ => Err(RowFault::Unreadable),
    }
}

// A frame with a body.
fn framed(alloc: Global, line: &str, body: &[u8]) -> Result<Vec<u8>, RowFault> {
    let mut bytes = format!(in alloc; "{line} {}\n", body.len())?.into_bytes();
    bytes.extend_from_slice(body)?;
    bytes.push(b'\n')?;
    Ok(bytes)
}
