// One item more, or none.
ghost use Rattle.std.specs.Prelude.{◌≡◌, ◌++◌, OnOk, option_to_list};

use dg_values::{Mem, OutOfMemory};

/// Adds an item at the end, where there is one.
pub fn add_any<T: Drop>(out: &mut Vec<T>, found: Option<T>) -> Mem<()>
    ensures { OnOk result (out.new.items ≡ out.old.items ++ option_to_list found) }
{
    match found {
        None => Ok(()),
        Some(item) => Ok(out.push(item)?),
    }
}
