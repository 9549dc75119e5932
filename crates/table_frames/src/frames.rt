// What is read of frames that are whole, cut short or none, and of sources that fail.
use crate::fields::{Answer, RowFault, bytes_of, separate};
use crate::sources::{read_often, source_of};
use dg_io::{MemSource, Source};
use dg_wire::{FrameFault, Frames, Request, is_name};
use std::alloc::{AllocError, Global};
use std::fmt::Write;

// The most answers that a row asks for.
const MOST_ANSWERS: u32 = 100;

// As many bytes as a source of these rows gives a call where the row doesn't say.
const MOST_BYTES: usize = 16_384;

/// `name | TEXT`: whether it is a name
pub fn name(alloc: Global, said: &[&str]) -> Answer {
    let [text] = said else {
        return Err(RowFault::Unreadable);
    };
    let answer = is_name(text.as_bytes());
    Ok(format!(in alloc; "{answer}")?)
}

/// `frames | BYTES | MOST A CALL | FAILING CALLS`: the requests, what ends them, and what is answered then again
pub fn frames(alloc: Global, said: &[&str]) -> Answer {
    let [bytes, most, failing] = said else {
        return Err(RowFault::Unreadable);
    };
    let mut source = source_of(alloc, bytes, most, failing)?;
    read_and_again(alloc, &mut source)
}

/// `after | BYTES | MOST A CALL | FAILING CALLS | READS`: the same, and then so many reads of the source itself
pub fn after(alloc: Global, said: &[&str]) -> Answer {
    let [bytes, most, failing, reads] = said else {
        return Err(RowFault::Unreadable);
    };
    let mut source = source_of(alloc, bytes, most, failing)?;
    let mut text = read_and_again(alloc, &mut source)?;
    let later = read_often(alloc, &mut source, "8", reads)?;
    write!(text, "; then {later}; faults {}", source.faults())?;
    Ok(text)
}

fn read_and_again<S: Source>(alloc: Global, source: &mut S) -> Answer {
    let mut frames = Frames::new(alloc)?;
    let mut text = read_all(alloc, &mut frames, source)?;
    let again = text_of_next(alloc, &mut frames, source)?;
    write!(text, "; again {again}")?;
    Ok(text)
}

// The requests, and what ends them.
fn read_all<S: Source>(alloc: Global, frames: &mut Frames, source: &mut S) -> Answer {
    let mut text = String::new(alloc);
    for _ in 0..MOST_ANSWERS {
        let next = frames.next(alloc, source);
        let ends = !matches!(next, Ok(Some(_)));
        separate(&mut text, "; ")?;
        push_next(&mut text, &next)?;
        if ends {
            break;
        }
    }
    Ok(text)
}

fn text_of_next<S: Source>(alloc: Global, frames: &mut Frames, source: &mut S) -> Answer {
    let mut text = String::new(alloc);
    push_next(&mut text, &frames.next(alloc, source))?;
    Ok(text)
}

// Adds a request as it is printed, or why there is none.
fn push_next(
    text: &mut String,
    next: &Result<Option<Request>, FrameFault>,
) -> Result<(), AllocError> {
    match next {
        Ok(Some(request)) => write!(text, "{request:?}"),
        Ok(None) => text.push_str("end"),
        Err(FrameFault::BadFrame { offset }) => write!(text, "bad frame at {offset}"),
        Err(FrameFault::TooLong) => text.push_str("too long"),
        Err(FrameFault::ReadFault) => text.push_str("read fault"),
        Err(FrameFault::OutOfMemory) => text.push_str("out of memory"),
    }
}

// A source that gives these bytes, and fails where more are asked for.
fn only(alloc: Global, bytes: Vec<u8>) -> Result<MemSource, RowFault> {
    let call = if bytes.is_empty() { 1 } else { 2 };
    let failing = vec![in alloc; call]?;
    Ok(MemSource::new(bytes, failing, MOST_BYTES))
}

// What is answered to some bytes, where asking for more is a read fault.
fn answered(alloc: Global, bytes: Vec<u8>) -> Answer {
    let mut source = only(alloc, bytes)?;
    let mut frames = Frames::new(alloc)?;
    read_all(alloc, &mut frames, &mut source)
}

/// `front | BYTES`: what is answered to these bytes, and whether more are asked for then, which is a read fault
pub fn front(alloc: Global, said: &[&str]) -> Answer {
    let [bytes] = said else {
        return Err(RowFault::Unreadable);
    };
    answered(alloc, bytes_of(alloc, bytes)?)
}

/// `roll | END | COUNT`: the same for `roll `, so many times `a`, and the end
pub fn roll(alloc: Global, said: &[&str]) -> Answer {
    let [end, count] = said else {
        return Err(RowFault::Unreadable);
    };
    let mut bytes = Vec::from_slice(alloc, b"roll ")?;
    bytes.extend_from_slice(&vec![in alloc; b'a'; count.parse::<usize>()?]?)?;
    bytes.extend_from_slice(&bytes_of(alloc, end)?)?;
    answered(alloc, bytes)
}

/// `cuts | BYTES`: a letter for each front, the shortest first: `w` where more is asked for, `r` where a request is
/// answered, and `b` where no frame begins
pub fn cuts(alloc: Global, said: &[&str]) -> Answer {
    let [bytes] = said else {
        return Err(RowFault::Unreadable);
    };
    let bytes = bytes_of(alloc, bytes)?;
    let mut letters = String::new(alloc);
    for len in 0..bytes.len() + 1 {
        letters.push(letter_of(alloc, &bytes[..len])?)?;
    }
    Ok(letters)
}

// The letter of a front.
fn letter_of(alloc: Global, front: &[u8]) -> Result<char, RowFault> {
    let mut source = only(alloc, Vec::from_slice(alloc, front)?)?;
    let mut frames = Frames::new(alloc)?;
    match frames.next(alloc, &mut source) {
        Ok(Some(_)) => Ok('r'),
        Ok(None) => Ok('e'),
        Err(FrameFault::BadFrame { .. }) => Ok('b'),
        Err(FrameFault::ReadFault) => Ok('w'),
        Err(FrameFault::TooLong) => Ok('l'),
        Err(FrameFault::OutOfMemory) => Err(RowFault::OutOfMemory),
    }
}

/// `bodies | BEHIND | TIMES | LENGTH | LAST`: so many queries with a body of that length, one with a body of the last
/// length, and what stands behind them
pub fn bodies(alloc: Global, said: &[&str]) -> Answer {
    let [behind, times, length, last] = said else {
        return Err(RowFault::Unreadable);
    };
    let mut bytes = Vec::new(alloc);
    for _ in 0..times.parse::<u32>()? {
        push_query(alloc, &mut bytes, length.parse::<usize>()?)?;
    }
    push_query(alloc, &mut bytes, last.parse::<usize>()?)?;
    bytes.extend_from_slice(&bytes_of(alloc, behind)?)?;
    bodies_answered(alloc, bytes)
}

// Adds a query with a body of that length.
fn push_query(alloc: Global, bytes: &mut Vec<u8>, length: usize) -> Result<(), AllocError> {
    let line = format!(in alloc; "query 1 {length}\n")?;
    bytes.extend_from_slice(line.as_bytes())?;
    bytes.extend_from_slice(&vec![in alloc; b'a'; length]?)?;
    bytes.extend_from_slice(b"\n")
}

// How many queries are read, how many bytes their bodies have, and what ends them.
fn bodies_answered(alloc: Global, bytes: Vec<u8>) -> Answer {
    let mut source = MemSource::new(bytes, Vec::new(alloc), MOST_BYTES);
    let mut frames = Frames::new(alloc)?;
    let mut total = 0u64;
    for count in 0..MOST_ANSWERS {
        let next = frames.next(alloc, &mut source);
        if let Ok(Some(Request::Query { sid: 1, body })) = &next {
            total = total.saturating_add(body.len() as u64);
        } else {
            let mut text = format!(in alloc; "{count} queries with {total} bytes; ")?;
            push_next(&mut text, &next)?;
            return Ok(text);
        }
    }
    Err(RowFault::Unreadable)
}
