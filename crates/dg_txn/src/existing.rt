// Whether a predicate has a triple.
ghost use Rattle.std.specs.Prelude.{◌≡◌, ◌≤◌, IfOk, length, nat_lt};
ghost use Rattle.std.specs.List.{AllByRecursion, list_any};
ghost use Rattle.dg_keys.specs.Keys.{key_cmp};
ghost use Rattle.dg_list.specs.Lists.{reading};
ghost use Rattle.dg_pages.specs.Entries.{IsMap};
ghost use Rattle.dg_txn.specs.Existing.{is_data_of, lists_some};

use crate::Present;
use crate::present::store_for;
use dg_keys::Key;
use dg_list::PList;
use dg_store::Store;
use dg_values::{Mem, OutOfMemory, Steps, Str};
use std::alloc::Global;
use std::sync::ledger::Ledger;

impl Present {
    ghost use Rattle.std.specs.Prelude.{◌≡◌, IfOk};
    ghost use Rattle.std.specs.List.{list_any};
    ghost use Rattle.dg_graph.specs.Graphs.{is_of};

    /// Whether a predicate has a triple. It reads the lists of its subjects one after another, up to the first that isn't empty.
    /// The error is want of memory.
    pub fn has_triple<L: Ledger>(
        &self,
        alloc: Global,
        pred: &str,
        reads: &mut Steps<L>,
    ) -> Mem<bool>
        ensures { IfOk result (λ has. has ≡ list_any (is_of pred.now) self.now.graph) }
    {
        match store_for(&self.owners, self.pins.as_slice(), pred) {
            Some(store) => any_listed(alloc, store, pred, self.at, reads),
            None => Ok(false),
        }
    }
}

// Whether a key is that of a subject's list of a predicate.
fn is_data_of(key: &Key, pred: &str) -> bool
    ensures { result ≡ is_data_of pred.now key.now }
{
    match key {
        Key::Data { p, .. } => p.as_str().cmp(pred).is_eq(),
        _ => false,
    }
}

// Whether a list has a posting at a timestamp.
fn has_posting<L: Ledger>(alloc: Global, list: &PList, at: u64, reads: &mut Steps<L>) -> Mem<bool>
    requires { list.now.base_ts ≤ at }
    ensures { IfOk result (λ has. has ≡ nat_lt 0 (length (reading list.now at))) }
{
    Ok(!list.read_at(alloc, at, reads)?.is_empty())
}

// Whether one of the lists of a predicate's subjects has a posting at a timestamp.
fn any_listed<L: Ledger>(
    alloc: Global,
    store: &Store,
    pred: &str,
    at: u64,
    reads: &mut Steps<L>,
) -> Mem<bool>
    requires bases { AllByRecursion (λ e. e.1.base_ts ≤ at) store.now }
    ensures any { IfOk result (λ any. any ≡ list_any (lists_some pred.now at) store.now) }
    ensures ascend { IfOk result (λ any. IsMap key_cmp store.now) }
{
    let p = Str::from_str(alloc, pred)?;
    let mut next = store.scan(&Key::Data { p, s: 0 });
    while let Some((key, list)) = next {
        if !is_data_of(key, pred) {
            return Ok(false);
        }
        let found = has_posting(alloc, list, at, reads)?;
        if found {
            return Ok(true);
        }
        next = store.scan_above(key);
    }
    Ok(false)
}
