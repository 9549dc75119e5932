// The words of a row, and the words that answers are made of.
ghost use Rattle.std.specs.Prelude.{◌<◌, IfOk};

use crate::fault::{Answer, Fault};
use dg_values::{Mem, OutOfMemory, Str};
use std::alloc::Global;
use std::cmp::Ordering;

// The control picture of NUL. Those of the other controls and of the blank follow it.
const FIRST_PICTURE: u32 = 0x2400;

// The control picture of the blank.
const LAST_PICTURE: u32 = 0x2420;

// The first of some words, and those behind it.
pub(crate) fn first<'a, 'b>(words: &'b [&'a str]) -> Answer<(&'a str, &'b [&'a str])> {
    match words.split_first() {
        Some((word, rest)) => Ok((*word, rest)),
        None => Err(Fault::Unfit),
    }
}

// The words before the first that is this one, and those behind it.
pub(crate) fn halves<'a, 'b>(
    words: &'b [&'a str],
    between: &str,
) -> Answer<(&'b [&'a str], &'b [&'a str])> {
    match words.iter().position(|word| *word == between) {
        Some(place) => Ok((&words[..place], &words[place + 1..])),
        None => Err(Fault::Unfit),
    }
}

// The words, or none where they are the word for no words.
pub(crate) fn any<'a, 'b>(words: &'b [&'a str]) -> &'b [&'a str] {
    match *words {
        ["none"] => &[],
        _ => words,
    }
}

// The number that words are alone.
pub(crate) fn only_number(words: &[&str]) -> Answer<u64> {
    match *words {
        [word] => number(word),
        _ => Err(Fault::Unfit),
    }
}

pub(crate) fn number(word: &str) -> Answer<u64> {
    Ok(word.parse::<u64>()?)
}

// The text that a word stands for: it has control pictures in the place of controls and blanks.
pub(crate) fn text(alloc: Global, word: &str) -> Mem<Str> {
    let plain: String = word.chars().map(|c| control_of(c)).collect(alloc)?;
    Ok(Str::from_string(plain))
}

// The text with control pictures in the place of controls and blanks.
pub(crate) fn shown(alloc: Global, text: &Str) -> Mem<String> {
    Ok(text.as_str().chars().map(|c| picture_of(c)).collect(alloc)?)
}

fn control_of(c: char) -> char {
    let code = u32::from(c);
    if code < FIRST_PICTURE || LAST_PICTURE < code {
        return c;
    }
    char::from_u32(code - FIRST_PICTURE).unwrap_or(c)
}

fn picture_of(c: char) -> char {
    let code = u32::from(c);
    if LAST_PICTURE - FIRST_PICTURE < code {
        return c;
    }
    char::from_u32(FIRST_PICTURE + code).unwrap_or(c)
}

// The texts with a blank between any two, or the word for none.
pub(crate) fn listed(alloc: Global, texts: &[String]) -> Mem<String> {
    if texts.is_empty() {
        return Ok(String::from_str(alloc, "none")?);
    }
    Ok(texts.join(alloc, " ")?)
}

// The word for a truth value.
pub(crate) fn truth(alloc: Global, truth: bool) -> Mem<String> {
    Ok(truth.to_string(alloc)?)
}

// The word for how one thing stands to another.
pub(crate) fn order(alloc: Global, order: Ordering) -> Mem<String> {
    let word = match order {
        Ordering::Less => "less",
        Ordering::Equal => "equal",
        Ordering::Greater => "greater",
    };
    Ok(String::from_str(alloc, word)?)
}

// Bytes in two hexadecimal digits each, or the word for none.
pub(crate) fn hex(alloc: Global, bytes: &[u8]) -> Mem<String> {
    if bytes.is_empty() {
        return Ok(String::from_str(alloc, "none")?);
    }
    let mut text = String::new(alloc);
    for byte in bytes {
        text.push_str(format!(in alloc; "{byte:02x}")?.as_str())?;
    }
    Ok(text)
}

// The bytes that a word has in two hexadecimal digits each; none for the word for none.
pub(crate) fn bytes(alloc: Global, word: &str) -> Answer<Vec<u8>> {
    let mut bytes = Vec::new(alloc);
    if word == "none" {
        return Ok(bytes);
    }
    for pair in word.as_bytes().chunks(2) {
        let [high, low] = *pair else {
            return Err(Fault::Unfit);
        };
        bytes.push(16 * digit(high)? + digit(low)?)?;
    }
    Ok(bytes)
}

// What a hexadecimal digit is worth.
fn digit(byte: u8) -> Answer<u8>
    ensures { IfOk result (λ worth. worth < 16) }
{
    match byte {
        b'0'..=b'9' => Ok(byte - b'0'),
        b'a'..=b'f' => Ok(byte - b'a' + 10),
        _ => Err(Fault::Unfit),
    }
}
