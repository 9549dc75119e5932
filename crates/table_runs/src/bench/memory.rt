// The memory of scripts, by what the process says of itself.
use crate::bench::fault::Fault;
use crate::bench::running::replies;
use crate::bench::scripts::Form;
use anyhow::Result;
use std::alloc::Global;
use std::fs::{self, Files};

// How many transactions or triples there are.
const MADE: u64 = 100_000;

// How many bytes the process counts as one.
const KILO: u64 = 1_024;

// Prints by how much the memory grows for each of many steps of a form while they are answered, and how much of that are the
// replies, which are kept to the end.
pub(crate) fn print_bytes(
    rt: &(impl Print + Files + Alloc<A = Global>),
    alloc: Global,
    form: Form,
) -> Result<()> {
    let mut script = form.lead(alloc, MADE)?;
    script.push_str(form.steps(alloc, MADE)?.as_str())?;
    let before = told(rt, "VmRSS:")?;
    let sink = replies(alloc, script)?;
    let each = told(rt, "VmHWM:")?.saturating_sub(before) / MADE;
    let written = sink.bytes().len() as u64 / MADE;
    println!(rt;
        "{MADE} {}: {each} bytes each, of which {written} are replies",
        form.word()
    )?;
    Ok(())
}

// How many bytes of memory of this kind the process has.
fn told(rt: &(impl Files + Alloc<A = Global>), kind: &str) -> Result<u64> {
    let text = fs::read_to_string(rt, "/proc/self/status")?;
    Ok(told_in(text.as_str(), kind)?)
}

// The number of the line of this kind.
fn told_in(text: &str, kind: &str) -> Result<u64, Fault> {
    for line in text.lines() {
        if let Some(rest) = line.strip_prefix(kind) {
            return kilobytes(rest);
        }
    }
    Err(Fault::Untold)
}

// The bytes of so many kilobytes, which a line says behind its kind.
fn kilobytes(said: &str) -> Result<u64, Fault> {
    let Some(word) = said.trim().split(' ').next() else {
        return Err(Fault::Untold);
    };
    match word.parse::<u64>() {
        Ok(kilobytes) => Ok(kilobytes.saturating_mul(KILO)),
        Err(_) => Err(Fault::Untold),
    }
}
