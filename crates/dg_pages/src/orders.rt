// Changes in any order, as one run.
ghost use Rattle.std.specs.Prelude.{◌↔◌, IfOk, IsTrue};
ghost use Rattle.dg_pages.specs.Entries.{changes_of};
ghost use Rattle.dg_pages.specs.Runs.{IsRun, ChangeAlike};

use dg_values::{Mem, OutOfMemory};
use std::sync::Arc;

// Changes whose keys ascend, which do to each map what these do in turn. Those that ascend stay as they are.
pub(crate) fn in_one_run<K: Ord + Drop, V: Drop>(
    changes: Vec<(Arc<K>, Option<Arc<V>>)>,
) -> Mem<Vec<(Arc<K>, Option<Arc<V>>)>>
    ensures run { IfOk result (λ run. IsRun K.cmp (changes_of run.items)) }
    ensures alike { IfOk result (λ run. ChangeAlike K.cmp (changes_of changes.items) (changes_of run.items)) }
{
    if ascend(changes.as_slice()) {
        Ok(changes)
    } else {
        last_ones(changes)
    }
}

// Whether each key is below the next.
fn ascend<K: Ord, V>(changes: &[(Arc<K>, Option<Arc<V>>)]) -> bool
    ensures { IsTrue result ↔ IsRun K.cmp (changes_of changes.now) }
{
    changes.is_sorted_by(|a, b| (*a.0).cmp(&*b.0).is_lt())
}

// The last change of each key, ascending by key.
fn last_ones<K: Ord + Drop, V: Drop>(
    mut changes: Vec<(Arc<K>, Option<Arc<V>>)>,
) -> Mem<Vec<(Arc<K>, Option<Arc<V>>)>>
    ensures run { IfOk result (λ run. IsRun K.cmp (changes_of run.items)) }
    ensures alike { IfOk result (λ run. ChangeAlike K.cmp (changes_of changes.items) (changes_of run.items)) }
{
    changes.reverse();
    changes.sort_by(|a, b| (*a.0).cmp(&*b.0))?;
    changes.dedup_by(|a, b| (*a.0).cmp(&*b.0).is_eq());
    Ok(changes)
}
