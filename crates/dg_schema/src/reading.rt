// A whole text as a schema.
ghost use Rattle.std.specs.Prelude.{◌≡◌, ◌≤◌, length, drop, Ok};
ghost use Rattle.dg_text.specs.Tokens.{toks, AreCut};
ghost use Rattle.dg_text.specs.Sizes.{AreSmall};
ghost use Rattle.dg_schema.specs.Readable.{AreReadable};
ghost use Rattle.dg_schema.specs.Whole.{line_feeds, line_at, schema_of, from_front, schema, Reads};

use crate::draft::Draft;
use crate::grammar::statements_at;
use crate::words::Words;
use crate::{Schema, SchemaFault};
use dg_text::pieces::pieces;
use dg_text::places::offset_at;
use dg_text::reading::left;
use dg_text::{Piece, ReadError, Token, front};
use dg_values::OutOfMemory;
use std::alloc::{AllocError, Global};

// How many line feeds stand in a text.
#[tactic(auto, using(crate::proofs::Lines::feeds_yes, crate::proofs::Lines::feeds_no, crate::proofs::Lines::feeds_end))]
fn count_line_feeds(bytes: &[u8]) -> u32
    requires { length bytes.now ≤ 1048576 }
    ensures count { result ≡ line_feeds bytes.now }
    ensures bound { result ≤ length bytes.now }
{
    let mut count: u32 = 0;
    for i in 0..bytes.len() {
        if bytes[i] == b'\n' {
            count += 1;
        }
    }
    count
}

// The line of an offset, from 1.
fn line_of(text: &str, offset: u32) -> u32
    requires { length text.now ≤ 1048576 }
    ensures { result ≡ line_at text.now offset }
{
    let bytes = text.as_bytes();
    let end = (offset as usize).min(bytes.len());
    1 + count_line_feeds(&bytes[..end])
}

// The schema of these definitions.
fn made(all: Draft) -> Result<Schema, SchemaFault>
    requires readable { AreReadable all }
    ensures { Reads result (Ok all) }
{
    match all.into_schema() {
        Ok(schema) => Ok(schema),
        Err(OutOfMemory) => Err(SchemaFault::OutOfMemory),
    }
}

// The definitions that tokens say, where they end at a place of the text.
fn read_tokens(
    alloc: Global,
    words: &Words,
    text: &str,
    tokens: &[Piece],
    end: usize,
) -> Result<Draft, SchemaFault>
    requires size { length text.now ≤ 1048576 }
    requires small { AreSmall (toks tokens.now) }
    requires end { end ≤ length text.now }
    ensures { Reads result (schema_of text.now (toks tokens.now) end) }
{
    match statements_at(alloc, words, tokens, 0) {
        Ok((all, at)) => {
            let place = left(tokens, at);
            if place == 0 && end == text.len() {
                Ok(all)
            } else {
                Err(SchemaFault::SchemaSyntax {
                    line: line_of(text, offset_at(tokens, end, place)),
                })
            }
        }
        Err(ReadError::OutOfMemory) => Err(SchemaFault::OutOfMemory),
        Err(ReadError::Fault { left }) => Err(SchemaFault::SchemaSyntax {
            line: line_of(text, offset_at(tokens, end, left)),
        }),
    }
}

// The definitions that the tokens at the front of a text say.
#[tactic(auto, using(crate::proofs::Lines::left_from, dg_text::proofs::Small::are_small))]
fn read_front(
    alloc: Global,
    words: &Words,
    text: &str,
    tokens: &[Token],
    end: usize,
) -> Result<Draft, SchemaFault>
    requires size { length text.now ≤ 1048576 }
    requires cut { AreCut text.now tokens.now }
    requires end { end ≤ length text.now }
    ensures { Reads result (from_front text.now (Ok (tokens.now, drop end text.now))) }
{
    match pieces(alloc, text, tokens) {
        Ok(all) => read_tokens(alloc, words, text, all.as_slice(), end),
        Err(AllocError) => Err(SchemaFault::OutOfMemory),
    }
}

// The definitions of a text while they are read.
fn read_draft(alloc: Global, text: &str) -> Result<Draft, SchemaFault>
    requires { length text.now ≤ 1048576 }
    ensures { Reads result (schema text.now) }
{
    match front(alloc, text.as_bytes()) {
        Ok((tokens, end)) => read_front(alloc, &Words::new(), text, tokens.as_slice(), end),
        Err(OutOfMemory) => Err(SchemaFault::OutOfMemory),
    }
}

/// The definitions of a text, in its order.
///
/// `SchemaSyntax` has the line of the first token that the grammar doesn't allow, of the name of a statement that is
/// read whole and isn't allowed, or of the first byte that begins no token, whichever is read first.
pub fn read_schema(alloc: Global, text: &str) -> Result<Schema, SchemaFault>
    requires { length text.now ≤ 1048576 }
    ensures { Reads result (schema text.now) }
{
    made(read_draft(alloc, text)?)
}
