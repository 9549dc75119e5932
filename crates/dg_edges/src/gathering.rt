// The lists of nodes that filings make.
ghost use Rattle.std.specs.Prelude.{◌≡◌, ◌++◌, [], List, IfOk, OnOk, map, length};
ghost use Rattle.dg_values.specs.Ascending.{Ascends};
ghost use Rattle.dg_values.specs.Order.{posting_cmp};
ghost use Rattle.dg_values.specs.declared.value.Posting.{Posting};
ghost use Rattle.dg_keys.specs.declared.key.Key.{Key};
ghost use Rattle.dg_keys.specs.Keys.{key_cmp};
ghost use Rattle.dg_edges.specs.Filing as filings;
ghost use Rattle.dg_edges.specs.Filing.{with_filed, nodes_under};

use crate::filing::Filed;
use dg_keys::Key;
use dg_sets::{in_order, place_of, put};
use dg_values::{Mem, OutOfMemory, Posting};
use std::alloc::Global;
use std::marker::Model;

// Nodes, ascending.
#[derive(Drop)]
pub struct Nodes {
    items: Vec<Posting>,
}

impl Model for Nodes {
    ghost use Rattle.std.specs.Prelude.{List};
    ghost use Rattle.dg_values.specs.Ascending.{Ascends};
    ghost use Rattle.dg_values.specs.Order.{posting_cmp};
    ghost use Rattle.dg_values.specs.declared.value.Posting.{Posting};

    ghost Value = { List Posting };

    ghost view = { λ nodes. nodes.items.items };

    ghost invariant = { λ nodes. Ascends posting_cmp nodes.items.items };
}

impl Nodes {
    ghost use Rattle.std.specs.Prelude.{◌≡◌, [], OnOk};
    ghost use Rattle.dg_values.specs.Ascending.{Ascends, with_one};
    ghost use Rattle.dg_values.specs.Order.{posting_cmp};
    ghost use Rattle.dg_values.specs.declared.value.Posting.TheVariants.{Uid};

    // No node.
    fn none(alloc: Global) -> Nodes
        ensures { result ≡ [] }
    {
        Nodes {
            items: Vec::new(alloc),
        }
    }

    // The nodes.
    pub fn as_slice(&self) -> &[Posting]
        ensures items { result.now ≡ self.now }
        ensures ascend { Ascends posting_cmp result.now }
    {
        self.items.as_slice()
    }

    // Puts a node in at its place, unless it is there.
    fn put(&mut self, node: u64) -> Mem<()>
        ensures { OnOk result (self.new ≡ with_one posting_cmp self.old (Uid node)) }
    {
        put(&mut self.items, Posting::Uid(node))
    }
}

// No node for each key.
fn none_at(alloc: Global, keys: &[Key]) -> Mem<Vec<Nodes>>
    ensures { IfOk result (λ v. v.items ≡ map (nodes_under []) keys.now) }
{
    let mut lists = Vec::with_capacity(alloc, keys.len())?;
    for _key in keys {
        lists.push(Nodes::none(alloc))?;
    }
    Ok(lists)
}

// Puts the node of a filing into the list at its key, where that is one of these keys.
fn gather_one(keys: &[Key], lists: &mut Vec<Nodes>, filed: &Filed) -> Mem<()>
    requires ascend { Ascends key_cmp keys.now }
    requires each { length lists.old.items ≡ length keys.now }
    ensures { (f : Key → List Posting) → lists.old.items ≡ map f keys.now → OnOk result (lists.new.items ≡ map (λ k. with_filed filed.now k (f k)) keys.now) }
{
    match place_of(keys, &filed.key) {
        Ok(place) => lists[place].put(filed.node),
        Err(_) => Ok(()),
    }
}

// The lists that filings make at some keys.
pub fn gathered(alloc: Global, keys: &[Key], filed: &[Filed]) -> Mem<Vec<Nodes>>
    requires ascend { Ascends key_cmp keys.now }
    ensures { IfOk result (λ v. v.items ≡ map (nodes_under filed.now) keys.now) }
{
    let mut lists = none_at(alloc, keys)?;
    for one in filed {
        gather_one(keys, &mut lists, one)?;
    }
    Ok(lists)
}

// Adds the keys of filings.
fn push_keys(alloc: Global, keys: &mut Vec<Key>, filed: &[Filed]) -> Mem<()>
    ensures { OnOk result (keys.new.items ≡ keys.old.items ++ map (λ f. f.key) filed.now) }
{
    for one in filed {
        keys.push(one.key.copy(alloc)?)?;
    }
    Ok(())
}

// The keys of filings, ascending.
pub fn filed_keys(alloc: Global, before: &[Filed], after: &[Filed]) -> Mem<Vec<Key>>
    ensures keys { IfOk result (λ v. v.items ≡ filings.filed_keys before.now after.now) }
    ensures ascend { IfOk result (λ v. Ascends key_cmp v.items) }
{
    let mut keys = Vec::new(alloc);
    push_keys(alloc, &mut keys, before)?;
    push_keys(alloc, &mut keys, after)?;
    Ok(in_order(keys))
}
