// A map and a base kept plainly, beside which the storage core is measured.
ghost use Rattle.std.specs.Prelude.{◌≤◌, length};

use dg_values::{Mem, OutOfMemory, Posting, cmp_posting};
use std::alloc::Global;
use std::sync::Arc;

// A map as one vector of pairs, ascending by key, that a change copies.
#[derive(Drop)]
pub(crate) struct PlainMap<K, V> {
    pairs: Vec<(Arc<K>, Arc<V>)>,
}

impl<K: Ord + Drop, V: Drop> PlainMap<K, V> {
    // The map of pairs whose keys ascend.
    pub(crate) fn of(pairs: Vec<(Arc<K>, Arc<V>)>) -> PlainMap<K, V> {
        PlainMap { pairs }
    }

    // The value at the key. It looks by halves.
    pub(crate) fn get(&self, key: &K) -> Option<&Arc<V>> {
        let pairs = self.pairs.as_slice();
        let at = place(pairs, key);
        if at == pairs.len() {
            return None;
        }
        let pair = &pairs[at];
        if key.cmp(&*pair.0).is_eq() {
            Some(&pair.1)
        } else {
            None
        }
    }

    // The map with this value at the key.
    pub(crate) fn with(&self, alloc: Global, key: Arc<K>, value: Arc<V>) -> Mem<PlainMap<K, V>> {
        let mut pairs = copies(alloc, self.pairs.as_slice())?;
        let at = place(pairs.as_slice(), &*key);
        if at < pairs.len() && (*key).cmp(&*pairs[at].0).is_eq() {
            pairs[at] = (key, value);
        } else {
            pairs.insert(at, (key, value))?;
        }
        Ok(PlainMap { pairs })
    }
}

// How many keys are below this one. It looks by halves.
fn place<K: Ord, V>(pairs: &[(Arc<K>, Arc<V>)], key: &K) -> usize
    ensures { result ≤ length pairs.now }
{
    pairs.partition_point(|pair| (*pair.0).cmp(key).is_lt())
}

// The same pointers.
fn copies<K: Drop, V: Drop>(
    alloc: Global,
    pairs: &[(Arc<K>, Arc<V>)],
) -> Mem<Vec<(Arc<K>, Arc<V>)>> {
    let mut copied = Vec::with_capacity(alloc, pairs.len())?;
    for pair in pairs {
        copied.push((Arc::try_clone(&pair.0)?, Arc::try_clone(&pair.1)?))?;
    }
    Ok(copied)
}

// A base as one vector of postings, which a walk copies.
#[derive(Drop)]
pub(crate) struct PlainBase {
    items: Vec<Posting>,
}

impl PlainBase {
    // The base of postings that ascend.
    pub(crate) fn of(items: Vec<Posting>) -> PlainBase {
        PlainBase { items }
    }

    // Whether a posting is there. It looks by halves.
    pub(crate) fn find(&self, item: &Posting) -> bool {
        self.items
            .as_slice()
            .binary_search_by(|other| cmp_posting(other, item))
            .is_ok()
    }

    // Equal postings.
    pub(crate) fn walk(&self, alloc: Global) -> Mem<Vec<Posting>> {
        let mut copied = Vec::with_capacity(alloc, self.items.len())?;
        for item in &self.items {
            copied.push(item.copy(alloc)?)?;
        }
        Ok(copied)
    }
}
