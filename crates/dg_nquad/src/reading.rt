// A whole text as a mutation.
ghost use Rattle.std.specs.Prelude.{◌≡◌, ◌≤◌, length, IfOk, Ok};
ghost use Rattle.std.specs.List.{AllByRecursion};
ghost use Rattle.dg_text.specs.Tokens.{toks, AreCut};
ghost use Rattle.dg_nquad.specs.Plain.{HasNoVariable};
ghost use Rattle.dg_text.specs.Sizes.{AreSmall};
ghost use Rattle.dg_nquad.specs.Whole.{statements_of, by_tokens, mutation, Reads};

use crate::grammar::body_at;
use crate::{Mutation, NquadFault};
use dg_text::pieces::pieces;
use dg_text::places::offset_at;
use dg_text::reading::left;
use dg_text::{LexFault, Piece, ReadError, Token, lex};
use std::alloc::{AllocError, Global};

// The mutation that the tokens of a text with this end say.
fn read_pieces(alloc: Global, tokens: &[Piece], end: usize) -> Result<Mutation, NquadFault>
    requires small { AreSmall (toks tokens.now) }
    requires end { end ≤ 1048576 }
    ensures { Reads result (statements_of (toks tokens.now) end) }
{
    match body_at(alloc, tokens, 0) {
        Ok((statements, at)) => {
            let place = left(tokens, at);
            if place == 0 {
                Ok(Mutation { statements })
            } else {
                Err(NquadFault::BadSyntax {
                    offset: offset_at(tokens, end, place),
                })
            }
        }
        Err(ReadError::OutOfMemory) => Err(NquadFault::OutOfMemory),
        Err(ReadError::Fault { left }) => Err(NquadFault::BadSyntax {
            offset: offset_at(tokens, end, left),
        }),
    }
}

// The mutation that a text with these tokens says.
#[tactic(auto, using(dg_text::proofs::Small::are_small))]
fn read_tokens(alloc: Global, text: &str, tokens: &[Token]) -> Result<Mutation, NquadFault>
    requires size { length text.now ≤ 1048576 }
    requires cut { AreCut text.now tokens.now }
    ensures { Reads result (by_tokens text.now (Ok tokens.now)) }
{
    match pieces(alloc, text, tokens) {
        Ok(all) => read_pieces(alloc, all.as_slice(), text.len()),
        Err(AllocError) => Err(NquadFault::OutOfMemory),
    }
}

/// The statements of a text, in its order. None of them has a variable.
///
/// `BadToken` has the offset of the first byte that begins no token, blank or comment, and is told before all else. Else
/// `BadSyntax` has the offset of the first token that the grammar doesn't allow, or the length of the text where it ends
/// too early. An Iri that names no node, predicate or type where one has to stand is such a token, as is `*` in what
/// sets, a Blank for a node in what deletes, and the word `uid` or `val` before `(`.
pub fn read_mutation(alloc: Global, text: &str) -> Result<Mutation, NquadFault>
    requires { length text.now ≤ 1048576 }
    ensures mutation { Reads result (mutation text.now) }
    ensures plain { IfOk result (λ m. AllByRecursion HasNoVariable m.statements) }
{
    match lex(alloc, text) {
        Ok(tokens) => read_tokens(alloc, text, tokens.as_slice()),
        Err(LexFault::OutOfMemory) => Err(NquadFault::OutOfMemory),
        Err(LexFault::BadToken { offset }) => Err(NquadFault::BadToken { offset }),
    }
}
