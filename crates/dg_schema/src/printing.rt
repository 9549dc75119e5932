// Definitions in the schema language.
ghost use Rattle.std.specs.Prelude.{◌≡◌, ◌++◌, [], flat_map, slice_get, IfOk, OnOk, string_bytes};
ghost use Rattle.std.specs.Option.{option_map_or};
ghost use Rattle.dg_schema.specs.Texts.{type_text, next_text, index_text, where_so, definition_text};

use crate::PredDef;
use crate::places::definition_at;
use crate::words::Words;
use dg_values::{Kind, Mem, OutOfMemory, Str, Tokenizer};
use std::alloc::Global;

// A scalar, in brackets where it is a list.
fn type_text(alloc: Global, words: &Words, kind: Kind, list: bool) -> Mem<Str>
    ensures { IfOk result (λ text. text ≡ type_text kind list) }
{
    let word = words.kind_word(kind);
    if list {
        Ok(Str::from_string(format!(in alloc; "[{word}]")?))
    } else {
        Str::from_str(alloc, word)
    }
}

// A tokenizer behind a comma.
fn next_text(alloc: Global, words: &Words, tokenizer: Tokenizer) -> Mem<Str>
    ensures { IfOk result (λ text. text ≡ next_text tokenizer) }
{
    let word = words.tokenizer_word(tokenizer);
    Ok(Str::from_string(format!(in alloc; ", {word}")?))
}

// The tokenizers behind the first.
#[tactic(auto, using(crate::proofs::Lines::flat_more))]
fn more_text(alloc: Global, words: &Words, more: &[Tokenizer]) -> Mem<Str>
    ensures { IfOk result (λ text. text ≡ flat_map next_text more.now) }
{
    let mut text = Str::from_str(alloc, "")?;
    for tokenizer in more {
        text.push_str(next_text(alloc, words, *tokenizer)?.as_str())?;
    }
    Ok(text)
}

// `@index` with its tokenizers, and nothing where there are none.
fn index_text(alloc: Global, words: &Words, tokens: &[Tokenizer]) -> Mem<Str>
    ensures { IfOk result (λ text. text ≡ index_text tokens.now) }
{
    match tokens {
        [] => Str::from_str(alloc, ""),
        [first, more @ ..] => {
            let first = words.tokenizer_word(*first);
            let more = more_text(alloc, words, more)?;
            Ok(Str::from_string(format!(in alloc; " @index({first}{more})")?))
        }
    }
}

// The text where it holds.
fn where_so(holds: bool, text: &'static str) -> &'static str
    ensures { result.now ≡ where_so holds text.now }
{
    if holds { text } else { "" }
}

// The line of a definition.
fn definition_text(alloc: Global, words: &Words, definition: &PredDef) -> Mem<Str>
    ensures { IfOk result (λ text. text ≡ definition_text definition.now) }
{
    let name = &definition.name;
    let scalar = type_text(alloc, words, definition.kind, definition.list)?;
    let index = index_text(alloc, words, definition.tokens.as_slice())?;
    let reverse = where_so(definition.reverse, " @reverse");
    let count = where_so(definition.count, " @count");
    let upsert = where_so(definition.upsert, " @upsert");
    Ok(Str::from_string(format!(in alloc; "{name}: {scalar}{index}{reverse}{count}{upsert} .\n")?))
}

// The line of the definition at a place, and nothing where there is none.
fn line_at(alloc: Global, words: &Words, definitions: &[PredDef], place: usize) -> Mem<Str>
    ensures { IfOk result (λ text. text ≡ option_map_or definition_text (slice_get definitions.now place) []) }
{
    match definition_at(definitions, place) {
        Some(definition) => definition_text(alloc, words, definition),
        None => Str::from_str(alloc, ""),
    }
}

/// The lines of the definitions at these places, in the order of the places.
#[tactic(auto, using(crate::proofs::Lines::flat_more))]
pub fn lines_at(alloc: Global, definitions: &[PredDef], places: &[usize]) -> Mem<Str>
    ensures { IfOk result (λ text. text ≡ flat_map (λ place. option_map_or definition_text (slice_get definitions.now place) []) places.now) }
{
    let words = Words::new();
    let mut text = Str::from_str(alloc, "")?;
    for place in places {
        text.push_str(line_at(alloc, &words, definitions, *place)?.as_str())?;
    }
    Ok(text)
}
