// Reads from sources in memory and over readers of std. After each read stands what the buffer has.
use crate::fields::{Answer, RowFault, bytes_of, numbers_of, separate, shown};
use dg_io::{Failed, MemSource, Source, StdSource};
use std::alloc::Global;
use std::fmt::Write;
use std::io;
use std::io::Read;

// A reader that always errs.
#[derive(Drop)]
struct Broken;

impl Read for Broken {
    fn read(&mut self, _buf: &mut [u8]) -> io::Result<usize> {
        Err(io::Error::from(io::ErrorKind::BrokenPipe))
    }
}

/// `source | BYTES | MOST A CALL | FAILING CALLS | ROOM | READS`
pub fn in_memory(alloc: Global, said: &[&str]) -> Answer {
    let [bytes, most, failing, room, reads] = said else {
        return Err(RowFault::Unreadable);
    };
    let mut source = source_of(alloc, bytes, most, failing)?;
    let mut text = read_often(alloc, &mut source, room, reads)?;
    write!(text, "; faults {}", source.faults())?;
    Ok(text)
}

/// A source in memory of a field's bytes.
pub fn source_of(
    alloc: Global,
    bytes: &str,
    most: &str,
    failing: &str,
) -> Result<MemSource, RowFault> {
    let bytes = bytes_of(alloc, bytes)?;
    let failing = numbers_of(alloc, failing)?;
    let most = most.parse::<usize>()?;
    if most == 0 {
        return Err(RowFault::Unreadable);
    }
    Ok(MemSource::new(bytes, failing, most))
}

/// `text source | BYTES | ROOM | READS`, over a reader of std that gives the bytes
pub fn over_text(alloc: Global, said: &[&str]) -> Answer {
    let [bytes, room, reads] = said else {
        return Err(RowFault::Unreadable);
    };
    let bytes = bytes_of(alloc, bytes)?;
    let mut source = StdSource::new(bytes.as_slice());
    let mut text = read_often(alloc, &mut source, room, reads)?;
    write!(text, "; faults {}", source.faults())?;
    Ok(text)
}

/// `broken source | ROOM | READS`, over a reader of std that always errs
pub fn over_broken(alloc: Global, said: &[&str]) -> Answer {
    let [room, reads] = said else {
        return Err(RowFault::Unreadable);
    };
    let mut source = StdSource::new(Broken);
    let mut text = read_often(alloc, &mut source, room, reads)?;
    write!(text, "; faults {}", source.faults())?;
    Ok(text)
}

/// What so many reads into one buffer answer.
pub fn read_often<S: Source>(alloc: Global, source: &mut S, room: &str, reads: &str) -> Answer {
    let mut text = String::new(alloc);
    let mut buffer = vec![in alloc; b'-'; room.parse::<usize>()?]?;
    for _ in 0..reads.parse::<u32>()? {
        separate(&mut text, ", ")?;
        match source.read(buffer.as_mut_slice()) {
            Ok(count) => write!(text, "{count}")?,
            Err(Failed) => text.push_str("fault")?,
        }
        write!(text, " [{}]", shown(alloc, buffer.as_slice())?)?;
    }
    Ok(text)
}
