// Texts that grow as long as there is room.
ghost use Rattle.std.specs.Prelude.{◌≤◌, string_len, IfOk};

use crate::MOST;
use anyhow::Result;

// A text with more at its end, where that fits.
pub(crate) fn longer(text: String, more: &str) -> Result<String>
    requires { string_len text ≤ 1048576 }
    ensures { IfOk result (λ text. string_len text ≤ 1048576) }
{
    let mut text = text;
    if text.len() + more.len() <= MOST {
        text.push_str(more)?;
    }
    Ok(text)
}
