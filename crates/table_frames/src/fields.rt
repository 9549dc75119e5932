// The fields of a row, and how bytes stand in them.
use dg_values::OutOfMemory;
use std::alloc::{AllocError, AllocFailed, Global};
use std::num::ParseIntError;
use std::str;

/// Why a row has no answer.
#[derive(Clone, Copy, Debug, PartialEq, Eq)]
pub enum RowFault {
    /// It isn't in the form of its table.
    Unreadable,
    OutOfMemory,
}

/// What is printed behind a row.
pub type Answer = Result<String, RowFault>;

impl From<AllocError> for RowFault {
    fn from(_: AllocError) -> Self {
        RowFault::OutOfMemory
    }
}

impl<T: Drop> From<AllocFailed<T>> for RowFault {
    fn from(_: AllocFailed<T>) -> Self {
        RowFault::OutOfMemory
    }
}

impl From<OutOfMemory> for RowFault {
    fn from(_: OutOfMemory) -> Self {
        RowFault::OutOfMemory
    }
}

impl From<ParseIntError> for RowFault {
    fn from(_: ParseIntError) -> Self {
        RowFault::Unreadable
    }
}

/// What stands between ` | `.
pub fn fields_of(alloc: Global, row: &str) -> Result<Vec<&str>, AllocError> {
    row.split(" | ").collect(alloc)
}

/// The numbers of a field, with a blank between any two.
pub fn numbers_of(alloc: Global, field: &str) -> Result<Vec<u64>, RowFault> {
    let mut numbers = Vec::new(alloc);
    for word in field.split_whitespace() {
        numbers.push(word.parse::<u64>()?)?;
    }
    Ok(numbers)
}

/// The text of a field, with control characters in the place of their pictures.
pub fn text_of(alloc: Global, field: &str) -> Result<String, AllocError> {
    field.chars().map(|c| plain(c)).collect(alloc)
}

/// The bytes of that text.
pub fn bytes_of(alloc: Global, field: &str) -> Result<Vec<u8>, AllocError> {
    Ok(text_of(alloc, field)?.into_bytes())
}

/// Bytes as they are printed, with pictures in the place of control characters.
pub fn shown(alloc: Global, bytes: &[u8]) -> Result<String, AllocError> {
    match str::from_utf8(bytes) {
        Ok(text) => text.chars().map(|c| pictured(c)).collect(alloc),
        Err(_) => format!(in alloc; "{bytes:?}"),
    }
}

/// Adds what stands between two parts of an answer, where one stands before it.
pub fn separate(text: &mut String, between: &str) -> Result<(), AllocError> {
    if text.is_empty() {
        Ok(())
    } else {
        text.push_str(between)
    }
}

fn plain(c: char) -> char {
    match c {
        '␊' => '\n',
        '␉' => '\t',
        '␍' => '\r',
        '␀' => '\0',
        _ => c,
    }
}

fn pictured(c: char) -> char {
    match c {
        '\n' => '␊',
        '\t' => '␉',
        '\r' => '␍',
        '\0' => '␀',
        _ => c,
    }
}
