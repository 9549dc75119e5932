// Parts of lists of several kinds, brought into one order.
ghost use Rattle.std.specs.Prelude.{◌≡◌, ◌++◌, ◌≤◌, length, filter, IfOk};
ghost use Rattle.std.specs.Ordering.{is_eq};
ghost use Rattle.std.specs.List.Sorted.{IsPermutation};
ghost use Rattle.dg_values.specs.Ascending.{Ascends};
ghost use Rattle.dg_keys.specs.declared.key.Key.{Key};
ghost use Rattle.dg_keys.specs.Keys.{key_cmp, part_cmp, ops_at};

use dg_keys::Part;
use dg_sets::InOrder;
use dg_values::{Mem, OutOfMemory};

// The same parts, ascending by key, where no two have one key.
pub fn sorted(mut parts: Vec<Part>) -> Mem<Vec<Part>>
    ensures same { IfOk result (λ v. (key : Key) → ops_at v.items key ≡ ops_at parts.items key) }
    ensures moved { IfOk result (λ v. IsPermutation parts.items v.items) }
    ensures ascend { ((key : Key) → length (filter (λ part. is_eq (key_cmp part.key key)) parts.items) ≤ 1) → IfOk result (λ v. Ascends part_cmp v.items) }
{
    parts.sort_by(|a, b| a.key.compare(&b.key))?;
    Ok(parts)
}

// The parts of three lists.
pub fn joined(mut parts: Vec<Part>, mut more: Vec<Part>, mut last: Vec<Part>) -> Mem<Vec<Part>>
    ensures { IfOk result (λ v. v.items ≡ (parts.items ++ more.items) ++ last.items) }
{
    parts.append(&mut more)?;
    parts.append(&mut last)?;
    Ok(parts)
}
