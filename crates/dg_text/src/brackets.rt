// How many brackets stand open.
ghost use Rattle.std.specs.Prelude.{◌≡◌, ◌<◌, ◌+◌, ◌^◌};
ghost use Rattle.dg_text.specs.Tokens.{tok, toks};
ghost use Rattle.dg_text.specs.Brackets as spec;

use crate::kinds::is_a_punct;
use crate::reading::{left, peek};
use crate::token::Piece;

fn opens(token: &Piece) -> bool
    ensures { result ≡ spec.opens (tok token.now) }
{
    is_a_punct(token, b'{') || is_a_punct(token, b'(') || is_a_punct(token, b'[')
}

fn closes(token: &Piece) -> bool
    ensures { result ≡ spec.closes (tok token.now) }
{
    is_a_punct(token, b'}') || is_a_punct(token, b')') || is_a_punct(token, b']')
}

fn counted(test: bool, n: usize) -> usize
    requires { n + 1 < 2 ^ 64 }
    ensures { result ≡ spec.counted test n }
{
    if test { n + 1 } else { n }
}

/// How many tokens are left from the first one on after which more than `most` brackets stand open.
pub fn too_deep(tokens: &[Piece], most: usize) -> Option<usize>
    ensures { result ≡ spec.too_deep most (toks tokens.now) }
{
    let mut opened: usize = 0;
    let mut closed: usize = 0;
    for at in 0..tokens.len() {
        match peek(tokens, at) {
            None => return None,
            Some(token) => {
                opened = counted(opens(token), opened);
                closed = counted(closes(token), closed);
                if opened.saturating_sub(closed) > most {
                    return Some(left(tokens, at));
                }
            }
        }
    }
    None
}
