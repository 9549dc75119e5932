// A script, run in memory.
use crate::bench::fault::Fault;
use anyhow::Result;
use dg_check::RegexPatterns;
use dg_io::{MemSink, MemSource};
use dg_node::{Status, run_script};
use std::alloc::Global;

// How many groups there are.
const GROUPS: u32 = 2;

// How many bytes a read or a write passes at most.
const PIECE: usize = 65_536;

// How a script was answered: how many replies there are, and how many of them are refusals.
#[derive(Clone, Copy)]
pub(crate) struct Answered {
    pub(crate) replies: u64,
    pub(crate) refused: u64,
}

// The text of the replies to a script that is answered to its end.
pub(crate) fn replies(alloc: Global, script: String) -> Result<MemSink> {
    let mut source = MemSource::new(script.into_bytes(), Vec::new(alloc), PIECE);
    let mut sink = MemSink::new(alloc, Vec::new(alloc), PIECE);
    let mut patterns = RegexPatterns::new(alloc);
    match run_script(alloc, GROUPS, &mut source, &mut sink, &mut patterns) {
        Status::Done => Ok(sink),
        _ => Err(Fault::Unanswered.into()),
    }
}

// What is counted of replies. A body of a reply never begins as a refusal does.
pub(crate) fn counted(replies: &[u8]) -> Answered {
    let mut counts = Answered {
        replies: 0,
        refused: 0,
    };
    for line in replies.split(|byte| *byte == b'\n') {
        if line.starts_with(b"ok ") {
            counts.replies = counts.replies.saturating_add(1);
        }
        if line.starts_with(b"error ") {
            counts.replies = counts.replies.saturating_add(1);
            counts.refused = counts.refused.saturating_add(1);
        }
    }
    counts
}
