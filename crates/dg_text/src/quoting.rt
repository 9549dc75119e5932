// A text as a Quoted token.
ghost use Rattle.std.specs.Prelude.{◌≡◌, ◌++◌, flat_map, IfOk, OnOk, string_bytes};
ghost use Rattle.std.specs.Char.{encode_utf8};
ghost use Rattle.dg_text.specs.Quoting.{quoted_byte, quoted_word};

use dg_values::{Mem, OutOfMemory, Str};
use std::alloc::Global;

// Adds a character as it stands between quotes.
#[tactic(auto, using(crate::proofs::QuotedChars::plain_char, crate::proofs::QuotedChars::quote_char, crate::proofs::QuotedChars::slash_char, crate::proofs::QuotedChars::feed_char, crate::proofs::QuotedChars::return_char))]
fn push_quoted(out: &mut String, c: char) -> Mem<()>
    ensures { OnOk result (string_bytes out.new ≡ string_bytes out.old ++ flat_map quoted_byte (encode_utf8 c)) }
{
    match c {
        '"' => Ok(out.push_str("\\\"")?),
        '\\' => Ok(out.push_str("\\\\")?),
        '\n' => Ok(out.push_str("\\n")?),
        '\r' => Ok(out.push_str("\\r")?),
        _ => Ok(out.push(c)?),
    }
}

/// A text between quotes: the Quoted token that means it.
pub fn quoted(alloc: Global, text: &str) -> Mem<Str>
    ensures { IfOk result (λ s. s ≡ (quoted_word text.now).1) }
{
    let mut out = String::from_str(alloc, "\"")?;
    for c in text.chars() {
        push_quoted(&mut out, c)?;
    }
    out.push('"')?;
    Ok(Str::from_string(out))
}
