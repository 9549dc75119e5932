// Rows of index tokens.
use crate::fault::Fault;
use crate::fields::listed;
use crate::objects::value_of;
use crate::readings::shown;
use dg_tokens::{IndexToken, tokens_of};
use dg_values::Tokenizer;
use std::alloc::Global;

// `tokens TOKENIZER | VALUE`: the tokens, each as its tokenizer and its value.
pub(crate) fn tokens_row(alloc: Global, call: &str, fields: &[&str]) -> Result<String, Fault> {
    let [field] = *fields else {
        return Err(Fault::Unreadable);
    };
    let value = value_of(alloc, field)?;
    let tokens = tokens_of(alloc, tokenizer_of(call)?, &value)?;
    let mut texts = Vec::new(alloc);
    for token in &tokens {
        texts.push(token_text(alloc, token)?)?;
    }
    listed(alloc, texts.as_slice())
}

fn token_text(alloc: Global, token: &IndexToken) -> Result<String, Fault> {
    let value = shown(alloc, &token.value)?;
    Ok(format!(in alloc; "{:?} {value}", token.tokenizer)?)
}

// The tokenizer of that word.
pub(crate) fn tokenizer_of(word: &str) -> Result<Tokenizer, Fault> {
    match word {
        "exact" => Ok(Tokenizer::Exact),
        "hash" => Ok(Tokenizer::Hash),
        "term" => Ok(Tokenizer::Term),
        "trigram" => Ok(Tokenizer::Trigram),
        "int" => Ok(Tokenizer::Int),
        "bool" => Ok(Tokenizer::Bool),
        "year" => Ok(Tokenizer::Year),
        "month" => Ok(Tokenizer::Month),
        "day" => Ok(Tokenizer::Day),
        "hour" => Ok(Tokenizer::Hour),
        _ => Err(Fault::Unreadable),
    }
}
