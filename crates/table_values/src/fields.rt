// The fields of rows, and what answers are made of.
use crate::fault::Fault;
use std::alloc::Global;

// What stands between two fields.
const BAR: &str = " | ";

// What stands for an empty list.
const NONE: &str = "none";

pub(crate) fn fields_of(alloc: Global, row: &str) -> Result<Vec<&str>, Fault> {
    Ok(row.split(BAR).collect(alloc)?)
}

pub(crate) fn number(field: &str) -> Result<u64, Fault> {
    field.parse::<u64>().ok().ok_or(Fault::Unreadable)
}

// The numbers of a field. A word is a number, or a run of them as 0,2..98.
pub(crate) fn numbers(alloc: Global, field: &str) -> Result<Vec<u64>, Fault> {
    let mut numbers = Vec::new(alloc);
    if field == NONE {
        return Ok(numbers);
    }
    for word in field.split_whitespace() {
        match word.split_once("..") {
            Some((front, last)) => push_run(&mut numbers, front, number(last)?)?,
            None => numbers.push(number(word)?)?,
        }
    }
    Ok(numbers)
}

// Adds a number and those behind it, as far from each other as the first two, up to the last.
fn push_run(numbers: &mut Vec<u64>, front: &str, last: u64) -> Result<(), Fault> {
    let (first, second) = front.split_once(',').ok_or(Fault::Unreadable)?;
    let (first, second) = (number(first)?, number(second)?);
    if second <= first {
        return Err(Fault::Unreadable);
    }
    for next in (first..=last).step_by((second - first) as usize) {
        numbers.push(next)?;
    }
    Ok(())
}

// Numbers with a blank between two.
pub(crate) fn joined(alloc: Global, numbers: &[u64]) -> Result<String, Fault> {
    let mut out = String::new(alloc);
    for item in numbers {
        if !out.is_empty() {
            out.push(' ')?;
        }
        out.push_str(item.to_string(alloc)?.as_str())?;
    }
    or_none(alloc, out)
}

// Texts with a comma between two.
pub(crate) fn listed(alloc: Global, texts: &[String]) -> Result<String, Fault> {
    let mut out = String::new(alloc);
    for text in texts {
        if !out.is_empty() {
            out.push_str(", ")?;
        }
        out.push_str(text.as_str())?;
    }
    or_none(alloc, out)
}

// The text, or a word where it is empty.
fn or_none(alloc: Global, text: String) -> Result<String, Fault> {
    if text.is_empty() {
        return word(alloc, NONE);
    }
    Ok(text)
}

pub(crate) fn word(alloc: Global, text: &str) -> Result<String, Fault> {
    Ok(String::from_str(alloc, text)?)
}

pub(crate) fn yes_or_no(alloc: Global, b: bool) -> Result<String, Fault> {
    word(alloc, if b { "yes" } else { "no" })
}

// A field without the word that it begins with.
pub(crate) fn behind<'a>(front: &str, field: &'a str) -> Result<&'a str, Fault> {
    field.strip_prefix(front).ok_or(Fault::Unreadable)
}

// What stands between the quotes.
pub(crate) fn unquoted(field: &str) -> Result<&str, Fault> {
    behind("\"", field)?
        .strip_suffix('"')
        .ok_or(Fault::Unreadable)
}

// What stands between the quotes, with control characters in the place of their pictures.
pub(crate) fn plain(alloc: Global, field: &str) -> Result<String, Fault> {
    let mut out = String::new(alloc);
    for c in unquoted(field)?.chars() {
        out.push(of_picture(c))?;
    }
    Ok(out)
}

// A text between quotes, with pictures in the place of control characters.
pub(crate) fn quoted(alloc: Global, text: &str) -> Result<String, Fault> {
    let mut out = word(alloc, "\"")?;
    for c in text.chars() {
        out.push(picture_of(c))?;
    }
    out.push('"')?;
    Ok(out)
}

fn of_picture(c: char) -> char {
    match c {
        '␀' => '\0',
        '␁' => '\u{1}',
        '␉' => '\t',
        '␊' => '\n',
        '␍' => '\r',
        c => c,
    }
}

fn picture_of(c: char) -> char {
    match c {
        '\0' => '␀',
        '\u{1}' => '␁',
        '\t' => '␉',
        '\n' => '␊',
        '\r' => '␍',
        c => c,
    }
}
