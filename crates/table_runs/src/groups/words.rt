// The words of a row, and the words that answers are made of.
use crate::groups::fault::{Answer, Fault};
use dg_values::{Mem, OutOfMemory, Str};
use std::alloc::Global;

// The word before the first blank, and what is behind it.
pub(crate) fn halved(text: &str) -> (&str, &str) {
    text.split_once(' ').unwrap_or((text, ""))
}

// The words of a text.
pub(crate) fn words_of(alloc: Global, text: &str) -> Mem<Vec<&str>> {
    Ok(text.split_whitespace().collect(alloc)?)
}

// The number that a text is.
pub(crate) fn number(word: &str) -> Answer<u64> {
    Ok(word.parse::<u64>()?)
}

// The number of an author or of groups.
pub(crate) fn small(word: &str) -> Answer<u32> {
    Ok(word.parse::<u32>()?)
}

pub(crate) fn text(alloc: Global, word: &str) -> Mem<Str> {
    Str::from_str(alloc, word)
}

// An answer of one word.
pub(crate) fn told(alloc: Global, word: &str) -> Answer<String> {
    Ok(String::from_str(alloc, word)?)
}

// The texts with a comma between any two, or the word for none.
pub(crate) fn listed(alloc: Global, texts: &[String]) -> Mem<String> {
    if texts.is_empty() {
        return Ok(String::from_str(alloc, "none")?);
    }
    Ok(texts.join(alloc, ", ")?)
}

// The word for a truth value.
pub(crate) fn truth(alloc: Global, truth: bool) -> Answer<String> {
    Ok(truth.to_string(alloc)?)
}
