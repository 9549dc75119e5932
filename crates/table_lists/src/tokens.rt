// Index tokens, as rows write them: the name of a tokenizer, and a value.
use crate::fault::{Answer, Fault};
use crate::postings::{value, value_word};
use dg_tokens::IndexToken;
use dg_values::{Mem, OutOfMemory, Tokenizer};
use std::alloc::Global;

const TOKENIZERS: [(&str, Tokenizer); 10] = [
    ("exact", Tokenizer::Exact),
    ("hash", Tokenizer::Hash),
    ("term", Tokenizer::Term),
    ("trigram", Tokenizer::Trigram),
    ("int", Tokenizer::Int),
    ("bool", Tokenizer::Bool),
    ("year", Tokenizer::Year),
    ("month", Tokenizer::Month),
    ("day", Tokenizer::Day),
    ("hour", Tokenizer::Hour),
];

pub(crate) fn token(alloc: Global, name: &str, written: &str) -> Answer<IndexToken> {
    let value = value(alloc, written)?;
    match TOKENIZERS.iter().find(|row| row.0 == name) {
        Some(row) => Ok(IndexToken {
            tokenizer: row.1,
            value,
        }),
        None => Err(Fault::Unfit),
    }
}

pub(crate) fn token_text(alloc: Global, token: &IndexToken) -> Mem<String> {
    let tokenizer = token.tokenizer;
    let name = match TOKENIZERS.iter().find(|row| row.1 == tokenizer) {
        Some(row) => row.0,
        None => "?",
    };
    let value = value_word(alloc, &token.value)?;
    Ok(format!(in alloc; "{name} {value}")?)
}
