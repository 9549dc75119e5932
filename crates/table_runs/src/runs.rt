// Runs of scripts.
use crate::fields::{Answer, RowFault, numbers_of, shown};
use crate::replies::Replies;
use crate::script::Script;
use dg_check::RegexPatterns;
use dg_io::{MemSink, MemSource, OpenGate};
use dg_node::{Status, dgraph_top, run_script, run_script_from};
use std::alloc::{AllocError, Global};
use std::array;
use std::fmt::Write;
use std::sync::Wait;
use std::thread::Threads;

// The groups where a row names none.
const GROUPS: u32 = 2;

// As many bytes as a source gives a call where a row doesn't say.
const MOST_BYTES: usize = 16_384;

// As a next timestamp this says that all are spent.
const SPENT: u64 = 4_611_686_018_427_387_904;

// A longer reply is printed in part.
const LONGEST_SHOWN: usize = 400;

// How much of it.
const SHOWN_FRONT: usize = 40;

// As many makers of patterns as the whole program has.
fn makers(alloc: Global) -> [RegexPatterns; 17] {
    array::from_fn(|_| RegexPatterns::new(alloc))
}

/// Runs the script by the word `run`: each of its rows with its reply, and how the run ends.
pub fn run<R: Threads + Wait + Sync>(rt: &R, alloc: Global, script: &mut Script) -> Answer {
    let bytes = Vec::from_slice(alloc, script.bytes())?;
    let mut source = MemSource::new(bytes, Vec::new(alloc), MOST_BYTES);
    let mut sink = Replies::new(alloc);
    let words = words_of(alloc, "run")?;
    let mut makers = makers(alloc);
    let status = dgraph_top(
        rt,
        alloc,
        &words,
        &mut source,
        &mut sink,
        &OpenGate,
        &mut makers,
    );
    told(alloc, script, "run", status, sink.pieces())
}

/// `from | NEXT`: the same on a machine whose next timestamp is this one
pub fn run_from(alloc: Global, script: &mut Script, row: &str, said: &[&str]) -> Answer {
    let [next] = said else {
        return Err(RowFault::Unreadable);
    };
    let next = next.parse::<u64>()?;
    if next < 1 || next > SPENT {
        return Err(RowFault::Unreadable);
    }
    let bytes = Vec::from_slice(alloc, script.bytes())?;
    let mut source = MemSource::new(bytes, Vec::new(alloc), MOST_BYTES);
    let mut sink = Replies::new(alloc);
    let mut maker = RegexPatterns::new(alloc);
    let status = run_script_from(alloc, GROUPS, next, &mut source, &mut sink, &mut maker);
    told(alloc, script, row, status, sink.pieces())
}

// What is printed of a run that this row asked for. The script has run then.
fn told(
    alloc: Global,
    script: &mut Script,
    asked: &str,
    status: Status,
    replies: &[Vec<u8>],
) -> Answer {
    let mut text = String::new(alloc);
    for (at, row) in script.rows().iter().enumerate() {
        let reply = reply_text(alloc, replies.get(at))?;
        write!(text, "{row} => {reply}\n")?;
    }
    let written = joined(alloc, replies)?;
    let ending = ending(alloc, status)?;
    write!(
        text,
        "{asked} => {ending}, {} replies, {} bytes\n",
        replies.len(),
        written.len()
    )?;
    script.ran(written);
    Ok(text)
}

// A reply without its last line feed, or in part, or that there is none.
fn reply_text(alloc: Global, reply: Option<&Vec<u8>>) -> Answer {
    let Some(reply) = reply else {
        return Ok(String::from_str(alloc, "no reply")?);
    };
    let reply = reply.as_slice();
    match reply.get(..SHOWN_FRONT) {
        Some(front) if reply.len() > LONGEST_SHOWN => {
            let front = shown(alloc, front)?;
            Ok(format!(in alloc; "{front}… of {} bytes", reply.len())?)
        }
        _ => Ok(shown(alloc, reply.strip_suffix(b"\n").unwrap_or(reply))?),
    }
}

fn joined(alloc: Global, pieces: &[Vec<u8>]) -> Result<Vec<u8>, AllocError> {
    let mut all = Vec::new(alloc);
    for piece in pieces {
        all.extend_from_slice(piece.as_slice())?;
    }
    Ok(all)
}

/// The number of the process, and what stands on standard error.
pub fn ending(alloc: Global, status: Status) -> Result<String, AllocError> {
    format!(in alloc; "{} {status}", status.number())
}

fn words_of(alloc: Global, text: &str) -> Result<Vec<String>, AllocError> {
    let mut words = Vec::new(alloc);
    for word in text.split_whitespace() {
        let word = if word == "''" { "" } else { word };
        words.push(String::from_str(alloc, word)?)?;
    }
    Ok(words)
}

/// `again | BYTES, or all | MOST A CALL | FAILING READS | FAILING WRITES`: runs so many bytes of the script again
pub fn again(alloc: Global, script: &Script, said: &[&str]) -> Answer {
    let [count, most, reads, writes] = said else {
        return Err(RowFault::Unreadable);
    };
    let Some(front) = front_of(script, count)? else {
        return Err(RowFault::Unreadable);
    };
    let most = most.parse::<usize>()?;
    if most == 0 {
        return Err(RowFault::Unreadable);
    }
    let bytes = Vec::from_slice(alloc, front)?;
    let mut source = MemSource::new(bytes, numbers_of(alloc, reads)?, most);
    let mut sink = MemSink::new(alloc, numbers_of(alloc, writes)?, most);
    let mut maker = RegexPatterns::new(alloc);
    let status = run_script(alloc, GROUPS, &mut source, &mut sink, &mut maker);
    let ending = ending(alloc, status)?;
    let compared = compared(alloc, script, sink.bytes())?;
    Ok(format!(in alloc; "{ending}, {compared}")?)
}

// So many bytes of a script, if it has so many.
fn front_of<'a>(script: &'a Script, count: &str) -> Result<Option<&'a [u8]>, RowFault> {
    if count == "all" {
        return Ok(Some(script.bytes()));
    }
    Ok(script.bytes().get(..count.parse::<usize>()?))
}

// How many bytes were written, and whether they are a front of those that the script's run wrote.
fn compared(alloc: Global, script: &Script, bytes: &[u8]) -> Answer {
    let Some(written) = script.written() else {
        return Err(RowFault::Unreadable);
    };
    let which = if written.starts_with(bytes) {
        "of the same"
    } else {
        "others"
    };
    Ok(format!(in alloc; "{} bytes {which}", bytes.len())?)
}

/// `groups | COUNT`: runs the script again with so many groups
pub fn groups(alloc: Global, script: &Script, said: &[&str]) -> Answer {
    let [count] = said else {
        return Err(RowFault::Unreadable);
    };
    let count = count.parse::<u32>()?;
    if count < 1 || count > 16 {
        return Err(RowFault::Unreadable);
    }
    let bytes = Vec::from_slice(alloc, script.bytes())?;
    let mut source = MemSource::new(bytes, Vec::new(alloc), MOST_BYTES);
    let mut sink = MemSink::new(alloc, Vec::new(alloc), MOST_BYTES);
    let mut maker = RegexPatterns::new(alloc);
    let status = run_script(alloc, count, &mut source, &mut sink, &mut maker);
    let ending = ending(alloc, status)?;
    let compared = compared(alloc, script, sink.bytes())?;
    Ok(format!(in alloc; "{ending}, {compared}")?)
}

/// `words | WORDS`: the whole program with these words, over the input `begin 1`
pub fn words<R: Threads + Wait + Sync>(rt: &R, alloc: Global, said: &[&str]) -> Answer {
    let words = words_of(alloc, said.first().copied().unwrap_or(""))?;
    let bytes = Vec::from_slice(alloc, b"begin 1\n")?;
    let mut source = MemSource::new(bytes, Vec::new(alloc), 1);
    let mut sink = MemSink::new(alloc, Vec::new(alloc), 1);
    let mut makers = makers(alloc);
    let status = dgraph_top(
        rt,
        alloc,
        &words,
        &mut source,
        &mut sink,
        &OpenGate,
        &mut makers,
    );
    let ending = ending(alloc, status)?;
    Ok(format!(in alloc; "{ending}, {} bytes", sink.bytes().len())?)
}
