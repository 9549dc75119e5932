// A whole text as a query, or as an upsert block.
ghost use Rattle.std.specs.Prelude.{◌≡◌, ◌≤◌, length, Ok, []};
ghost use Rattle.dg_text.specs.Cases.{Left, Gives, ended};
ghost use Rattle.dg_text.specs.Reading.{Read};
ghost use Rattle.dg_text.specs.Sizes.{AreSmall};
ghost use Rattle.dg_text.specs.Tokenized.{TokensOf};
ghost use Rattle.dg_text.specs.Tokens.{toks, AreCut};
ghost use Rattle.dg_parse.specs.Grammar.{query};
ghost use Rattle.dg_parse.specs.Sizes.{AreFew};
ghost use Rattle.dg_parse.specs.Upsert.{upsert};
ghost use Rattle.dg_parse.specs.Whole.{outcome, said, by_tokens, query_of, upsert_of, Reads};

use crate::blocks::query_at;
use crate::upserts::upsert_at;
use crate::{DqlFault, Query, Upsert};
use dg_text::brackets::too_deep;
use dg_text::passed::Passed;
use dg_text::pieces::pieces;
use dg_text::places::offset_at;
use dg_text::reading::left;
use dg_text::{LexFault, Piece, ReadError, Token, lex};
use std::alloc::{AllocError, Global};

// The most brackets that stand open at once.
const MOST: usize = 32;

// What was read to the end, or the offset of the fault.
fn outcome_of<A: Drop>(
    read: Result<(A, Passed), ReadError>,
    tokens: &[Piece],
    end: usize,
) -> Result<A, DqlFault>
    requires small { AreSmall (toks tokens.now) }
    requires end { end ≤ 1048576 }
    ensures { (said : Read Left A) → Gives (λ x. x) (toks tokens.now) read said → Reads result (outcome (toks tokens.now) end (ended said)) }
{
    match read {
        Ok((x, p)) => {
            let place = left(tokens, p.at);
            if place == 0 && p.refused == 0 {
                Ok(x)
            } else {
                Err(DqlFault::BadSyntax {
                    offset: offset_at(tokens, end, p.refused.max(place)),
                })
            }
        }
        Err(ReadError::OutOfMemory) => Err(DqlFault::OutOfMemory),
        Err(ReadError::Fault { left }) => Err(DqlFault::BadSyntax {
            offset: offset_at(tokens, end, left),
        }),
    }
}

// The query that the tokens of a text with this end say.
fn query_pieces(alloc: Global, tokens: &[Piece], end: usize) -> Result<Query, DqlFault>
    requires few { AreFew (toks tokens.now) }
    requires end { end ≤ 1048576 }
    ensures { Reads result (said query (toks tokens.now) end) }
{
    match too_deep(tokens, MOST) {
        Some(place) => Err(DqlFault::TooDeep {
            offset: offset_at(tokens, end, place),
        }),
        None => {
            let start = Passed { at: 0, refused: 0 };
            let read = query_at(alloc, tokens, start);
            outcome_of(read, tokens, end)
        }
    }
}

// The query that a text with these tokens says.
fn query_tokens(alloc: Global, text: &str, tokens: &[Token]) -> Result<Query, DqlFault>
    requires size { length text.now ≤ 1048576 }
    requires cut { AreCut text.now tokens.now }
    requires all { TokensOf text.now tokens.now [] }
    ensures { Reads result (by_tokens query text.now (Ok tokens.now)) }
{
    match pieces(alloc, text, tokens) {
        Ok(all) => query_pieces(alloc, all.as_slice(), text.len()),
        Err(AllocError) => Err(DqlFault::OutOfMemory),
    }
}

/// The query of a text, as the grammar gives it.
///
/// Offsets are in bytes. `BadToken` has that of the first byte that begins no token, blank or comment, and is told before
/// all else. `TooDeep` has that of the first token after which more than 32 of `{`, `(` and `[` stand open, those that were
/// opened less those that were closed, and is told before `BadSyntax`. `BadSyntax` has that of the first token that the
/// grammar or a case beside it doesn't allow, or the length of the text where it ends too early. `OutOfMemory` can come in
/// place of the query or of another fault. The text is only read, and an `Err` leaves nothing behind.
pub fn parse(alloc: Global, text: &str) -> Result<Query, DqlFault>
    requires { length text.now ≤ 1048576 }
    ensures { Reads result (query_of text.now) }
{
    match lex(alloc, text) {
        Ok(tokens) => query_tokens(alloc, text, tokens.as_slice()),
        Err(LexFault::OutOfMemory) => Err(DqlFault::OutOfMemory),
        Err(LexFault::BadToken { offset }) => Err(DqlFault::BadToken { offset }),
    }
}

// The upsert block that the tokens of a text with this end say.
fn upsert_pieces(alloc: Global, tokens: &[Piece], end: usize) -> Result<Upsert, DqlFault>
    requires few { AreFew (toks tokens.now) }
    requires end { end ≤ 1048576 }
    ensures { Reads result (said upsert (toks tokens.now) end) }
{
    match too_deep(tokens, MOST) {
        Some(place) => Err(DqlFault::TooDeep {
            offset: offset_at(tokens, end, place),
        }),
        None => {
            let start = Passed { at: 0, refused: 0 };
            let read = upsert_at(alloc, tokens, start);
            outcome_of(read, tokens, end)
        }
    }
}

// The upsert block that a text with these tokens says.
fn upsert_tokens(alloc: Global, text: &str, tokens: &[Token]) -> Result<Upsert, DqlFault>
    requires size { length text.now ≤ 1048576 }
    requires cut { AreCut text.now tokens.now }
    requires all { TokensOf text.now tokens.now [] }
    ensures { Reads result (by_tokens upsert text.now (Ok tokens.now)) }
{
    match pieces(alloc, text, tokens) {
        Ok(all) => upsert_pieces(alloc, all.as_slice(), text.len()),
        Err(AllocError) => Err(DqlFault::OutOfMemory),
    }
}

/// The upsert block of a text, as the grammar gives it: a query and the mutations that use its variables. Its faults are
/// those of [`parse`], and an `Err` leaves nothing behind.
pub fn parse_upsert(alloc: Global, text: &str) -> Result<Upsert, DqlFault>
    requires { length text.now ≤ 1048576 }
    ensures { Reads result (upsert_of text.now) }
{
    match lex(alloc, text) {
        Ok(tokens) => upsert_tokens(alloc, text, tokens.as_slice()),
        Err(LexFault::OutOfMemory) => Err(DqlFault::OutOfMemory),
        Err(LexFault::BadToken { offset }) => Err(DqlFault::BadToken { offset }),
    }
}
