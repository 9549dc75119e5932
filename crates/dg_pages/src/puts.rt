// A pair put into a tree in place, where no other map shares the pages on the way to its key.
ghost use Rattle.std.specs.Prelude.{◌≡◌, ◌<◌, ◌≤◌, cond, IfOk, OnErr, length};
ghost use Rattle.std.specs.Arc.{arc_value};
ghost use Rattle.dg_pages.specs.Entries.{IsMap, entries_of, with_entry};
ghost use Rattle.dg_pages.specs.Paged.{joined, IsPaged};
ghost use Rattle.dg_pages.specs.Nodes.{pages_at, is_left};

use crate::places::{is_at, place};
use crate::tree::{Node, PAGE, Tree};
use dg_values::{Mem, OutOfMemory};
use std::sync::Arc;

// Puts a pair into a page that has its key or room for one more, and answers whether it did. Otherwise the page stays as it is.
fn put_in_page<K: Ord + Drop, V: Drop>(
    pairs: &mut Vec<(Arc<K>, Arc<V>)>,
    key: &Arc<K>,
    value: &Arc<V>,
) -> Mem<bool>
    requires map { IsMap K.cmp (entries_of pairs.old.items) }
    ensures put { IfOk result (λ done. entries_of pairs.new.items ≡ cond done (with_entry K.cmp (arc_value key.now) (arc_value value.now) (entries_of pairs.old.items)) (entries_of pairs.old.items)) }
    ensures err { OnErr result (pairs.new.items ≡ pairs.old.items) }
    ensures some { length pairs.old.items ≤ length pairs.new.items }
    ensures fits { length pairs.old.items ≤ 64 → length pairs.new.items ≤ 64 }
{
    let pair = (Arc::try_clone(key)?, Arc::try_clone(value)?);
    let at = place(pairs.as_slice(), &**key);
    if is_at(pairs.as_slice(), at, &**key) {
        pairs[at] = pair;
        Ok(true)
    } else if pairs.len() < PAGE {
        pairs.insert(at, pair)?;
        Ok(true)
    } else {
        Ok(false)
    }
}

// Whether a key belongs to the left side of a fork.
fn is_left<K: Ord, V>(node: &Node<K, V>, key: &K) -> bool
    ensures { result ≡ is_left K.cmp key.now node.now }
{
    match node {
        Node::Page(_) => false,
        Node::Fork { middle, .. } => key.cmp(&**middle).is_lt(),
    }
}

impl<K: Ord + Drop, V: Drop> Tree<K, V> {
    // Puts a pair in place, and answers whether it did. Otherwise the tree stays as it is.
    #[cycle(put)]
    fn put(&mut self, key: &Arc<K>, value: &Arc<V>) -> Mem<bool>
        ensures put { IfOk result (λ done. joined self.new ≡ cond done (with_entry K.cmp (arc_value key.now) (arc_value value.now) (joined self.old)) (joined self.old)) }
        ensures err { OnErr result (joined self.new ≡ joined self.old) }
        ensures pages { length self.new ≡ length self.old }
        ensures paged { IsPaged K.cmp self.new }
    {
        let low = is_left(&self.node, &**key);
        match &mut self.node {
            Node::Page(pairs) => put_in_page(pairs, key, value),
            Node::Fork { left, right, .. } => {
                if low {
                    put_in(left, key, value)
                } else {
                    put_in(right, key, value)
                }
            }
        }
    }
}

// The same in a tree that may be shared, which then stays as it is.
#[cycle(put)]
fn put_in<K: Ord + Drop, V: Drop>(
    tree: &mut Arc<Tree<K, V>>,
    key: &Arc<K>,
    value: &Arc<V>,
) -> Mem<bool>
    ensures put { IfOk result (λ done. joined (arc_value tree.new) ≡ cond done (with_entry K.cmp (arc_value key.now) (arc_value value.now) (joined (arc_value tree.old))) (joined (arc_value tree.old))) }
    ensures err { OnErr result (joined (arc_value tree.new) ≡ joined (arc_value tree.old)) }
    ensures pages { length (arc_value tree.new) ≡ length (arc_value tree.old) }
    ensures paged { IsPaged K.cmp (arc_value tree.old) → IsPaged K.cmp (arc_value tree.new) }
{
    match Arc::get_mut(tree) {
        Some(tree) => tree.put(key, value),
        None => Ok(false),
    }
}

// The same in the tree of a map, if it has one.
pub(crate) fn put_in_place<K: Ord + Drop, V: Drop>(
    root: &mut Option<Arc<Tree<K, V>>>,
    key: &Arc<K>,
    value: &Arc<V>,
) -> Mem<bool>
    ensures put { IfOk result (λ done. joined (pages_at root.new) ≡ cond done (with_entry K.cmp (arc_value key.now) (arc_value value.now) (joined (pages_at root.old))) (joined (pages_at root.old))) }
    ensures err { OnErr result (joined (pages_at root.new) ≡ joined (pages_at root.old)) }
{
    match root {
        None => Ok(false),
        Some(tree) => put_in(tree, key, value),
    }
}
