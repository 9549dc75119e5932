// Writes to sinks in memory and over writers of std, and the gate that is always open.
use crate::fields::{Answer, RowFault, numbers_of, separate, shown};
use dg_io::{Failed, Gate, MemSink, OpenGate, Sink, StdSink, write_whole};
use std::alloc::{AllocError, Global};
use std::fmt::Write;

/// `sink | PIECES | MOST A CALL | FAILING CALLS`, and after each write what is held
pub fn in_memory(alloc: Global, said: &[&str]) -> Answer {
    let [pieces, most, failing] = said else {
        return Err(RowFault::Unreadable);
    };
    let mut sink = sink_of(alloc, most, failing)?;
    let mut text = String::new(alloc);
    for piece in pieces.split(',') {
        separate(&mut text, ", ")?;
        push_taken(&mut text, sink.write(piece.as_bytes()))?;
        write!(text, " [{}]", shown(alloc, sink.bytes())?)?;
    }
    write!(text, "; faults {}", sink.faults())?;
    Ok(text)
}

/// `whole | PIECE | MOST A CALL | FAILING CALLS`, by `write_whole`
pub fn whole(alloc: Global, said: &[&str]) -> Answer {
    let [piece, most, failing] = said else {
        return Err(RowFault::Unreadable);
    };
    let mut sink = sink_of(alloc, most, failing)?;
    let written = match write_whole(&mut sink, piece.as_bytes()) {
        Ok(()) => "ok",
        Err(Failed) => "fault",
    };
    let held = shown(alloc, sink.bytes())?;
    let faults = sink.faults();
    Ok(format!(in alloc; "{written} [{held}]; faults {faults}")?)
}

fn sink_of(alloc: Global, most: &str, failing: &str) -> Result<MemSink, RowFault> {
    let failing = numbers_of(alloc, failing)?;
    let most = most.parse::<usize>()?;
    if most == 0 {
        return Err(RowFault::Unreadable);
    }
    Ok(MemSink::new(alloc, failing, most))
}

/// `growing sink | PIECES`, over a vector of bytes
pub fn growing(alloc: Global, said: &[&str]) -> Answer {
    let [pieces] = said else {
        return Err(RowFault::Unreadable);
    };
    let mut held = Vec::new(alloc);
    let mut sink = StdSink::new(&mut held);
    let mut text = write_each(alloc, &mut sink, pieces)?;
    write!(text, "; faults {}", sink.faults())?;
    write!(text, "; held [{}]", shown(alloc, held.as_slice())?)?;
    Ok(text)
}

/// `full sink | PIECES | ROOM`, over a slice with room for so many bytes
pub fn full(alloc: Global, said: &[&str]) -> Answer {
    let [pieces, room] = said else {
        return Err(RowFault::Unreadable);
    };
    let mut held = vec![in alloc; b'-'; room.parse::<usize>()?]?;
    let mut sink = StdSink::new(held.as_mut_slice());
    let mut text = write_each(alloc, &mut sink, pieces)?;
    write!(text, "; faults {}", sink.faults())?;
    write!(text, "; held [{}]", shown(alloc, held.as_slice())?)?;
    Ok(text)
}

// What a write of each piece answers. A comma stands between two pieces.
fn write_each<K: Sink>(alloc: Global, sink: &mut K, pieces: &str) -> Answer {
    let mut text = String::new(alloc);
    for piece in pieces.split(',') {
        separate(&mut text, ", ")?;
        push_taken(&mut text, sink.write(piece.as_bytes()))?;
    }
    Ok(text)
}

// Adds how many bytes a write took.
fn push_taken(text: &mut String, taken: Result<usize, Failed>) -> Result<(), AllocError> {
    match taken {
        Ok(count) => write!(text, "{count}"),
        Err(Failed) => text.push_str("fault"),
    }
}

/// `gate | SESSION | REQUEST`: both calls return, and do nothing
pub fn gate(alloc: Global, said: &[&str]) -> Answer {
    let [session, request] = said else {
        return Err(RowFault::Unreadable);
    };
    let (session, request) = (session.parse::<u32>()?, request.parse::<u32>()?);
    OpenGate.before(session, request);
    OpenGate.after(session, request);
    Ok(String::from_str(alloc, "open")?)
}
