// The nodes that checked statements name.
ghost use Rattle.std.specs.Prelude.{◌≡◌, max, [], ◌∷◌, IfOk, OnOk, fold, flat_map};
ghost use Rattle.std.specs.List.{position_or_len};
ghost use Rattle.dg_values.specs.Order.{same_text};
ghost use Rattle.dg_edges.specs.Expanding.{target_node, nodes_of, name_of, uid_of, with_name, new_names, top_uid};

use crate::{Edge, Named, Resolved, Target};
use dg_values::{Mem, OutOfMemory, Str};
use std::alloc::Global;
use std::collections::BTreeMap;
use std::marker::Model;

impl Resolved {
    ghost use Rattle.std.specs.Prelude.{◌≡◌, IfOk};
    ghost use Rattle.dg_edges.specs.Expanding.{new_names, top_uid};

    /// The greatest node that is named by its number, or 0. It takes no memory.
    pub fn top_uid(&self) -> u64
        ensures { result ≡ top_uid self.now }
    {
        let edges = self.edges.as_slice();
        let mut top = 0;
        for edge in edges {
            top = top_after(top, edge);
        }
        top
    }

    /// The names of the new nodes, each once, in the order in which they first appear. It takes n log n steps. The
    /// error is want of memory.
    pub fn new_names(&self, alloc: Global) -> Mem<Vec<Str>>
        ensures { IfOk result (λ names. names.items ≡ new_names self.now) }
    {
        names_of(alloc, self.edges.as_slice())?.copies(alloc)
    }
}

// The greater of a number and a node's, where the node is named by one.
fn top_of(top: u64, node: &Named) -> u64
    ensures { result ≡ fold max top (uid_of node.now) }
{
    match node {
        Named::Uid(uid) => top.max(*uid),
        Named::New(_) => top,
    }
}

// The greatest of a number and those of the nodes that a statement names.
fn top_after(top: u64, edge: &Edge) -> u64
    ensures { result ≡ fold max top (flat_map uid_of (nodes_of (edge.now ∷ []))) }
{
    let top = top_of(top, &edge.s);
    match &edge.o {
        Target::Node(node) => top_of(top, node),
        _ => top,
    }
}

// Names in the order in which they were added, each once. Contracts see their bytes.
#[derive(Drop)]
pub(crate) struct Names<'a> {
    order: Vec<&'a str>,
    // The place of each in the order.
    places: BTreeMap<&'a str, usize>,
}

impl<'a> Model for Names<'a> {
    ghost use Rattle.std.specs.Prelude.{◌≡◌, List, ℕ, map};
    ghost use Rattle.std.specs.List.{position};
    ghost use Rattle.std.specs.BTreeMap.{get_by};
    ghost use Rattle.dg_values.specs.Order.{text_cmp, same_text};

    ghost Value = { List (List ℕ) };

    ghost view = { λ n. map (λ name. name.now) n.order.items };

    ghost invariant = { λ n. (name : List ℕ) → get_by (λ other. text_cmp name other.now) n.places ≡ position (same_text name) (map (λ other. other.now) n.order.items) };
}

impl<'a> Names<'a> {
    // No name.
    fn none(alloc: Global) -> Names<'a>
        ensures { result ≡ [] }
    {
        Names {
            order: Vec::new(alloc),
            places: BTreeMap::new(alloc),
        }
    }

    // Adds a name, unless it is there.
    fn add(&mut self, name: &'a str) -> Mem<()>
        ensures { OnOk result (self.new ≡ with_name self.old name.now) }
    {
        if self.places.contains_key(name) {
            return Ok(());
        }
        let place = self.order.len();
        self.order.push(name)?;
        match self.places.insert(name, place) {
            Ok(_) => Ok(()),
            Err(_) => {
                self.order.pop();
                Err(OutOfMemory)
            }
        }
    }

    // Adds the name of a node, if it is a new one.
    fn add_node(&mut self, node: &'a Named) -> Mem<()>
        ensures { OnOk result (self.new ≡ fold with_name self.old (name_of node.now)) }
    {
        match node {
            Named::Uid(_) => Ok(()),
            Named::New(name) => self.add(name.as_str()),
        }
    }

    // Adds the names of a statement's new nodes, first the subject's.
    fn add_edge(&mut self, edge: &'a Edge) -> Mem<()>
        ensures { OnOk result (self.new ≡ fold with_name self.old (flat_map name_of (nodes_of (edge.now ∷ [])))) }
    {
        self.add_node(&edge.s)?;
        match &edge.o {
            Target::Node(node) => self.add_node(node),
            _ => Ok(()),
        }
    }

    // The place of a name, or how many there are.
    pub(crate) fn place(&self, name: &str) -> usize
        ensures { result ≡ position_or_len (same_text name.now) self.now }
    {
        match self.places.get(name) {
            Some(place) => *place,
            None => self.order.len(),
        }
    }

    // Copies of the names, in their order.
    fn copies(&self, alloc: Global) -> Mem<Vec<Str>>
        ensures { IfOk result (λ names. names.items ≡ self.now) }
    {
        let order = self.order.as_slice();
        let mut copies = Vec::with_capacity(alloc, order.len())?;
        for name in order {
            copies.push(Str::from_str(alloc, name)?)?;
        }
        Ok(copies)
    }
}

// The names of the new nodes of statements.
pub(crate) fn names_of<'a>(alloc: Global, edges: &'a [Edge]) -> Mem<Names<'a>>
    ensures { IfOk result (λ names. names ≡ new_names edges.now) }
{
    let mut names = Names::none(alloc);
    for edge in edges {
        names.add_edge(edge)?;
    }
    Ok(names)
}
