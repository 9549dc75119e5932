// What tokens name, in memory of its own.
ghost use Rattle.std.specs.Prelude.{◌≡◌, IfOk, IfErr};
ghost use Rattle.dg_text.specs.declared.reading.ReadError.TheVariants as errors;
ghost use Rattle.dg_text.specs.Tokens.{tok};
ghost use Rattle.dg_nquad.specs.Words.{node_meant};

use crate::Node;
use dg_text::kinds::{is_a_blank, is_an_iri};
use dg_text::numbers::uid_said;
use dg_text::texts::{blank_name, owned};
use dg_text::{Piece, ReadError};
use std::alloc::Global;

/// The node that a token names: an Iri with a Uid in it, or, where nothing is deleted, a Blank.
pub fn node_of(alloc: Global, delete: bool, token: &Piece) -> Result<Option<Node>, ReadError>
    ensures made { IfOk result (λ node. node ≡ node_meant delete (tok token.now)) }
    ensures memory { IfErr result (λ e. e ≡ errors.OutOfMemory) }
{
    if is_an_iri(token) {
        return match uid_said(token.text) {
            None => Ok(None),
            Some(uid) => Ok(Some(Node::Uid(uid))),
        };
    }
    if delete || !is_a_blank(token) {
        return Ok(None);
    }
    match blank_name(token.text) {
        None => Ok(None),
        Some(name) => Ok(Some(Node::Blank(owned(alloc, name)?))),
    }
}
