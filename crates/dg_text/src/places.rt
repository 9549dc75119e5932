// Places of tokens as offsets of bytes.
ghost use Rattle.std.specs.Prelude.{◌≡◌, ◌≤◌};
ghost use Rattle.dg_text.specs.Places.{offset_of};
ghost use Rattle.dg_text.specs.Sizes.{AreSmall};
ghost use Rattle.dg_text.specs.Tokens.{toks};

use crate::reading::{left, peek};
use crate::token::Piece;

/// The offset of the token from which on so many are left, or where the tokens end.
#[tactic(auto, using(crate::proofs::Small::next_start))]
pub fn offset_at(tokens: &[Piece], end: usize, place: usize) -> u32
    requires small { AreSmall (toks tokens.now) }
    requires end { end ≤ 1048576 }
    ensures { result ≡ offset_of (toks tokens.now) end place }
{
    let at = left(tokens, 0).saturating_sub(place);
    match peek(tokens, at) {
        None => end as u32,
        Some(token) => token.start as u32,
    }
}
