// Scripts that have many of one step.
use crate::bench::indexed::{INDEXES, push_indexed};
use anyhow::Result;
use std::alloc::Global;

// The scripts, in the order in which they are run.
pub(crate) const FORMS: [Form; 10] = [
    Form::Tiny,
    Form::Large,
    Form::Grown,
    Form::Hot,
    Form::Conflicts,
    Form::Begins,
    Form::Reads,
    Form::Indexed { changes: 1 },
    Form::Indexed { changes: 100 },
    Form::Indexed { changes: 10_000 },
];

// How many sessions there are.
const SESSIONS: u64 = 16;

// How many statements one body has at most.
const BODY: u64 = 1_000;

// What a script has many of.
#[derive(Clone, Copy)]
pub(crate) enum Form {
    // Transactions that each name a node of its own.
    Tiny,
    // Statements of one transaction, a thousand in a body.
    Large,
    // Statements of one transaction, each in a body of its own.
    Grown,
    // Transactions that each overwrite the name of one node, while another stays open and reads it at the end.
    Hot,
    // Transactions of 16 sessions that begin together, each of which names the same node.
    Conflicts,
    // Transactions that do nothing, over as many nodes with a name.
    Begins,
    // Queries for the name of one node after another, in one transaction.
    Reads,
    // Triples under an exact, a term and a reverse index, in transactions of so many.
    Indexed { changes: u64 },
}

impl Form {
    // What there are many of, in a word.
    pub(crate) fn word(self) -> &'static str {
        match self {
            Form::Tiny => "tiny transactions",
            Form::Large => "statements of one transaction",
            Form::Grown => "statements of one transaction, one a body",
            Form::Hot => "overwrites of one name under a reader",
            Form::Conflicts => "transactions in conflict",
            Form::Begins => "begins with their discards, over as many nodes",
            Form::Reads => "reads",
            Form::Indexed { changes: 1 } => "indexed triples, one a transaction",
            Form::Indexed { changes: 100 } => "indexed triples, 100 a transaction",
            Form::Indexed { .. } => "indexed triples, 10,000 a transaction",
        }
    }

    // What is done first, which isn't timed by itself.
    pub(crate) fn lead(self, alloc: Global, count: u64) -> Result<String> {
        let mut text = String::new(alloc);
        match self {
            Form::Indexed { .. } => push_frame(alloc, &mut text, "alter", INDEXES)?,
            _ => push_frame(alloc, &mut text, "alter", "name: string .")?,
        }
        match self {
            Form::Hot => text.push_str("begin 2\n")?,
            Form::Begins | Form::Reads => push_loaded(alloc, &mut text, count)?,
            _ => {}
        }
        Ok(text)
    }

    // So many steps behind the lead.
    pub(crate) fn steps(self, alloc: Global, count: u64) -> Result<String> {
        let mut text = String::new(alloc);
        match self {
            Form::Tiny => push_tiny(alloc, &mut text, count)?,
            Form::Large => push_large(alloc, &mut text, count)?,
            Form::Grown => push_grown(alloc, &mut text, count)?,
            Form::Hot => push_hot(alloc, &mut text, count)?,
            Form::Conflicts => push_conflicts(alloc, &mut text, count)?,
            Form::Begins => push_begins(&mut text, count)?,
            Form::Reads => push_reads(alloc, &mut text, count)?,
            Form::Indexed { changes } => push_indexed(alloc, &mut text, count, changes)?,
        }
        Ok(text)
    }
}

// A frame with a body.
pub(crate) fn push_frame(alloc: Global, text: &mut String, words: &str, body: &str) -> Result<()> {
    let length = body.len();
    let frame = format!(in alloc; "{words} {length}\n{body}\n")?;
    text.push_str(frame.as_str())?;
    Ok(())
}

// A statement that names a node.
fn statement(alloc: Global, node: u64, name: u64) -> Result<String> {
    Ok(format!(in alloc; "<0x{node:x}> <name> \"n{name}\" .")?)
}

// A transaction of a session that names a node.
fn push_naming(alloc: Global, text: &mut String, node: u64, name: u64) -> Result<()> {
    let body = statement(alloc, node, name)?;
    text.push_str("begin 1\n")?;
    push_frame(alloc, text, "mutate 1", body.as_str())?;
    text.push_str("commit 1\n")?;
    Ok(())
}

fn push_tiny(alloc: Global, text: &mut String, count: u64) -> Result<()> {
    for number in 0..count {
        push_naming(alloc, text, number.saturating_add(1), number)?;
    }
    Ok(())
}

// The reader, session 2, asks behind the last of them.
fn push_hot(alloc: Global, text: &mut String, count: u64) -> Result<()> {
    for number in 0..count {
        push_naming(alloc, text, 1, number)?;
    }
    push_frame(alloc, text, "query 2", "{ q(func: uid(0x1)) { name } }")
}

// One transaction, by bodies of many statements.
fn push_large(alloc: Global, text: &mut String, count: u64) -> Result<()> {
    text.push_str("begin 1\n")?;
    for part in 0..count / BODY + 1 {
        let first = part.saturating_mul(BODY);
        let body = statements(alloc, first, count.min(first.saturating_add(BODY)))?;
        push_frame(alloc, text, "mutate 1", body.as_str())?;
    }
    text.push_str("commit 1\n")?;
    Ok(())
}

// One transaction whose changes the groups have: they apply a commit when the next transaction begins.
fn push_loaded(alloc: Global, text: &mut String, count: u64) -> Result<()> {
    push_large(alloc, text, count)?;
    text.push_str("begin 1\ndiscard 1\n")?;
    Ok(())
}

// One transaction, by a body for each statement.
fn push_grown(alloc: Global, text: &mut String, count: u64) -> Result<()> {
    text.push_str("begin 1\n")?;
    for number in 0..count {
        let body = statement(alloc, number.saturating_add(1), number)?;
        push_frame(alloc, text, "mutate 1", body.as_str())?;
    }
    text.push_str("commit 1\n")?;
    Ok(())
}

// Statements that each name a node, from one number to below another.
fn statements(alloc: Global, first: u64, end: u64) -> Result<String> {
    let mut text = String::new(alloc);
    for number in first..end {
        let line = statement(alloc, number.saturating_add(1), number)?;
        text.push_str(line.as_str())?;
        text.push_str("\n")?;
    }
    Ok(text)
}

// Rounds in which all sessions begin, name the same node, and commit.
fn push_conflicts(alloc: Global, text: &mut String, count: u64) -> Result<()> {
    for round in 0..count / SESSIONS {
        push_round(alloc, text, round)?;
    }
    Ok(())
}

// One round.
fn push_round(alloc: Global, text: &mut String, round: u64) -> Result<()> {
    push_each(alloc, text, "begin")?;
    push_namings(alloc, text, round)?;
    push_each(alloc, text, "commit")
}

// A frame without a body for each session.
fn push_each(alloc: Global, text: &mut String, verb: &str) -> Result<()> {
    for session in 1..=SESSIONS {
        let frame = format!(in alloc; "{verb} {session}\n")?;
        text.push_str(frame.as_str())?;
    }
    Ok(())
}

// Each session names the same node.
fn push_namings(alloc: Global, text: &mut String, round: u64) -> Result<()> {
    for session in 1..=SESSIONS {
        let words = format!(in alloc; "mutate {session}")?;
        let body = statement(alloc, 1, round)?;
        push_frame(alloc, text, words.as_str(), body.as_str())?;
    }
    Ok(())
}

fn push_begins(text: &mut String, count: u64) -> Result<()> {
    for _turn in 0..count {
        text.push_str("begin 1\ndiscard 1\n")?;
    }
    Ok(())
}

// Queries of one transaction.
fn push_reads(alloc: Global, text: &mut String, count: u64) -> Result<()> {
    text.push_str("begin 1\n")?;
    for number in 1..=count {
        let body = format!(in alloc; "{{ q(func: uid(0x{number:x})) {{ name }} }}")?;
        push_frame(alloc, text, "query 1", body.as_str())?;
    }
    Ok(())
}
