// Texts that become parts of a row, within a limit.
ghost use Rattle.std.specs.Prelude.{◌≡◌, ◌≤◌, ◌<◌, ◌++◌, ◌∷◌, [], length, IfOk, OnOk, IsErrOf};
ghost use Rattle.dg_recurse.specs.Rows.{joined, enclosed, comma_behind};

use dg_tree::{TreeFault, push};
use dg_values::Str;
use std::alloc::Global;

// The comma behind a text that isn't empty.
fn comma_behind(text: &Str) -> &'static str
    ensures { result.now ≡ comma_behind text.now }
{
    if text.is_empty() { "" } else { "," }
}

/// Adds a text between two others behind what stands there, with a comma, or nothing where the text is empty.
pub fn add(
    out: &mut Str,
    limit: usize,
    before: &str,
    text: &str,
    behind: &str,
) -> Result<(), TreeFault>
    ensures ok { OnOk result (out.new ≡ joined (out.old ∷ enclosed before.now text.now behind.now ∷ [])) }
    ensures within { length out.old ≤ limit → length out.new ≤ limit }
    ensures too_large { IsErrOf result TreeFault.TooLarge → limit < length (joined (out.old ∷ enclosed before.now text.now behind.now ∷ [])) }
{
    if text.is_empty() {
        return Ok(());
    }
    let comma = comma_behind(out);
    push(out, limit, comma)?;
    push(out, limit, before)?;
    push(out, limit, text)?;
    push(out, limit, behind)
}

/// A text between two others, or nothing where it is empty.
pub fn enclose(
    alloc: Global,
    limit: usize,
    before: &str,
    text: &str,
    behind: &str,
) -> Result<Str, TreeFault>
    ensures text { IfOk result (λ out. out ≡ enclosed before.now text.now behind.now) }
    ensures within { IfOk result (λ out. length out ≤ limit) }
    ensures too_large { IsErrOf result TreeFault.TooLarge → limit < length (enclosed before.now text.now behind.now) }
{
    let mut out = Str::from_string(String::new(alloc));
    add(&mut out, limit, before, text, behind)?;
    Ok(out)
}
