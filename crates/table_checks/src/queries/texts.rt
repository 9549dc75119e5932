// What texts say, or why they say nothing.
ghost use Rattle.std.specs.Prelude.{◌≤◌, length};

use crate::MOST;
use crate::queries::pictures::{pictured, plain};
use dg_parse::{DqlFault, parse, parse_upsert};
use dg_print::{query_text, upsert_text};
use dg_values::Mem;
use std::alloc::Global;
use std::fmt::Write;
use std::str;

// What the printed text of a query is read as.
fn query_again(alloc: Global, text: &str) -> Mem<String> {
    if text.len() > MOST {
        return Ok(String::from_str(alloc, "long")?);
    }
    match parse(alloc, text) {
        Ok(query) => query_text(alloc, &query),
        Err(fault) => Ok(fault.to_string(alloc)?),
    }
}

// What the printed text of an upsert block is read as.
fn upsert_again(alloc: Global, text: &str) -> Mem<String> {
    if text.len() > MOST {
        return Ok(String::from_str(alloc, "long")?);
    }
    match parse_upsert(alloc, text) {
        Ok(upsert) => upsert_text(alloc, &upsert),
        Err(fault) => Ok(fault.to_string(alloc)?),
    }
}

// A printed text, and what it is read as where that isn't printed the same.
fn printed(alloc: Global, text: &str, again: &str) -> Mem<Option<String>> {
    if again == text {
        return Ok(Some(pictured(alloc, text)?));
    }
    let both = format!(in alloc; "{text}is read as {again}")?;
    Ok(Some(pictured(alloc, both.as_str())?))
}

// The query of a text, or its fault.
pub(crate) fn query(alloc: Global, text: &str) -> Mem<Option<String>>
    requires { length text.now ≤ 1048576 }
{
    match parse(alloc, text) {
        Ok(query) => {
            let text = query_text(alloc, &query)?;
            let again = query_again(alloc, text.as_str())?;
            printed(alloc, text.as_str(), again.as_str())
        }
        Err(fault) => Ok(Some(fault.to_string(alloc)?)),
    }
}

// The upsert block of a text, or its fault.
pub(crate) fn upsert(alloc: Global, text: &str) -> Mem<Option<String>>
    requires { length text.now ≤ 1048576 }
{
    match parse_upsert(alloc, text) {
        Ok(upsert) => {
            let text = upsert_text(alloc, &upsert)?;
            let again = upsert_again(alloc, text.as_str())?;
            printed(alloc, text.as_str(), again.as_str())
        }
        Err(fault) => Ok(Some(fault.to_string(alloc)?)),
    }
}

// What is said of each front of a query but the empty and the whole one, in turn.
pub(crate) fn cut(alloc: Global, text: &str) -> Mem<Option<String>> {
    let bytes = text.as_bytes();
    let mut list = String::new(alloc);
    for end in 1..bytes.len() {
        let word = match str::from_utf8(&bytes[..end]) {
            Ok(front) => front_text(alloc, front)?,
            Err(_) => String::from_str(alloc, "-")?,
        };
        write!(list, "{word} ")?;
    }
    list.push_str("end")?;
    Ok(Some(list))
}

fn front_text(alloc: Global, front: &str) -> Mem<String> {
    if front.len() > MOST {
        return Ok(String::from_str(alloc, "long")?);
    }
    match parse(alloc, front) {
        Ok(_) => Ok(String::from_str(alloc, "read")?),
        Err(fault) => short(alloc, fault),
    }
}

// A letter for what is wrong, and the offset.
fn short(alloc: Global, fault: DqlFault) -> Mem<String> {
    match fault {
        DqlFault::BadToken { offset } => Ok(format!(in alloc; "T{offset}")?),
        DqlFault::TooDeep { offset } => Ok(format!(in alloc; "D{offset}")?),
        DqlFault::BadSyntax { offset } => Ok(format!(in alloc; "S{offset}")?),
        DqlFault::OutOfMemory => Ok(String::from_str(alloc, "memory")?),
    }
}

// What is said of a front, a piece so many times, and a back, by these four fields.
pub(crate) fn repeated(alloc: Global, fields: &str) -> Mem<Option<String>> {
    let Some((front, rest)) = fields.split_once('\t') else {
        return Ok(None);
    };
    let Some((piece, rest)) = rest.split_once('\t') else {
        return Ok(None);
    };
    let Some((count, back)) = rest.split_once('\t') else {
        return Ok(None);
    };
    let Ok(count) = count.parse::<u32>() else {
        return Ok(None);
    };
    let mut text = plain(alloc, front)?;
    push_times(&mut text, plain(alloc, piece)?.as_str(), count)?;
    text.push_str(plain(alloc, back)?.as_str())?;
    whole_text(alloc, text.as_str())
}

// A piece so many times, or as many as fit a text.
fn push_times(text: &mut String, piece: &str, count: u32) -> Mem<()> {
    for _ in 0..count {
        if text.len() > MOST {
            return Ok(());
        }
        text.push_str(piece)?;
    }
    Ok(())
}

// How long the text is and what it is printed in, or what is wrong with it.
fn whole_text(alloc: Global, text: &str) -> Mem<Option<String>> {
    let bytes = text.len();
    if bytes > MOST {
        return Ok(None);
    }
    match parse(alloc, text) {
        Ok(query) => {
            let printed = query_text(alloc, &query)?;
            Ok(Some(format!(in alloc; "read of {bytes}, printed in {}", printed.len())?))
        }
        Err(fault) => {
            let word = short(alloc, fault)?;
            Ok(Some(format!(in alloc; "{word} of {bytes}")?))
        }
    }
}
