// How near places are to one that shows something of itself.
ghost use Rattle.std.specs.Prelude.{◌≡◌, ◌+◌, ◌∷◌, [], List, ℕ, Some, nat_le, length, map, slice_get, slice_index_or, IfOk, OnOk, IsTrue};
ghost use Rattle.std.specs.Option.{option_map};
ghost use Rattle.std.specs.List.{list_all};
ghost use Rattle.dg_recurse.specs.Columns.{own_of, nodes_of};
ghost use Rattle.dg_recurse.specs.Near.{is_nothing, is_bare, are_near, is_least, own_row, AreNear, AreLeast};
ghost use Rattle.dg_recurse.specs.Rows.{joined};

use crate::Column;
use dg_values::{Mem, OutOfMemory, Str};
use std::alloc::Global;
use std::marker::Model;

/// For each place, how many edges lead from it at least to one that shows something of itself, and its row where no edge is followed
/// any more.
#[derive(Drop)]
pub struct Reach {
    near: Vec<u8>,
    rows: Vec<Str>,
}

impl Model for Reach {
    ghost use Rattle.dg_recurse.specs.Near.{Reached};

    ghost Value = { Reached };

    ghost view = { λ r. record { edges = r.near.items; rows = r.rows.items } };
}

// The number of edges at a place: none behind the last.
fn edges_at(near: &[u8], place: usize) -> u8
    ensures { result ≡ slice_index_or near.now place 0 }
{
    match near.get(place) {
        Some(edges) => *edges,
        None => 0,
    }
}

// Whether a column shows nothing of the node at a place itself.
fn is_nothing(column: &Column, place: usize) -> bool
    ensures { result ≡ is_nothing (own_of column.now place) }
{
    column.own(place).is_empty()
}

// Whether no column shows anything of the node at a place itself.
fn is_bare(columns: &[Column], place: usize) -> bool
    ensures { result ≡ is_bare columns.now place }
{
    columns.iter().all(|column| is_nothing(column, place))
}

// Whether a place is as near as that, but for one edge.
fn is_near(near: &[u8], edges: u8, node: usize) -> bool
    ensures { result ≡ nat_le edges (1 + slice_index_or near.now node 0) }
{
    edges <= edges_at(near, node).saturating_add(1)
}

// Whether all nodes of a list are as near as that, but for one edge.
fn are_near(near: &[u8], edges: u8, nodes: &[usize]) -> bool
    ensures { result ≡ are_near near.now edges nodes.now }
{
    nodes.iter().all(|node| is_near(near, edges, *node))
}

// Whether all nodes to which columns lead from a place are as near as that, but for one edge.
fn is_behind(columns: &[Column], near: &[u8], edges: u8, place: usize) -> bool
    ensures { result ≡ list_all (λ column. are_near near.now edges (nodes_of column place)) columns.now }
{
    columns
        .iter()
        .all(|column| are_near(near, edges, column.nodes(place)))
}

// Whether no place that shows something of itself is nearer to this one than is said.
fn is_least(columns: &[Column], near: &[u8], place: usize) -> bool
    ensures { result ≡ is_least near.now columns.now place }
{
    let edges = edges_at(near, place);
    edges == 0 || (is_bare(columns, place) && is_behind(columns, near, edges, place))
}

// Whether that holds of all places.
fn are_least(columns: &[Column], near: &[u8]) -> bool
    ensures { IsTrue result → AreNear near.now columns.now }
{
    for place in 0..near.len() {
        if !is_least(columns, near, place) {
            return false;
        }
    }
    true
}

// The least number of edges at nodes of a list.
fn least_of(near: &[u8], nodes: &[usize]) -> u8 {
    let mut least = u8::MAX;
    for node in nodes {
        least = least.min(edges_at(near, *node));
    }
    least
}

// The least number of edges at nodes to which columns lead from a place.
fn least_below(columns: &[Column], near: &[u8], place: usize) -> u8 {
    let mut least = u8::MAX;
    for column in columns {
        least = least.min(least_of(near, column.nodes(place)));
    }
    least
}

// Brings each place to one edge more than the nearest to which it leads. It answers whether any came nearer.
fn bring_near(columns: &[Column], near: &mut Vec<u8>) -> bool {
    let mut nearer = false;
    for place in 0..near.len() {
        let edges = least_below(columns, near.as_slice(), place).saturating_add(1);
        if edges < near[place] {
            near[place] = edges;
            nearer = true;
        }
    }
    nearer
}

// The numbers of edges before any is followed: none at a place that shows something of itself, and else too many.
fn begun(alloc: Global, columns: &[Column], count: usize, most: u8) -> Mem<Vec<u8>> {
    let mut near = Vec::with_capacity(alloc, count)?;
    for place in 0..count {
        near.push(if is_bare(columns, place) { most } else { 0 })?;
    }
    Ok(near)
}

// Adds a text behind others, with a comma, unless it is empty.
fn add_text(out: &mut Str, text: &str) -> Mem<()>
    ensures { OnOk result (out.new ≡ joined (out.old ∷ text.now ∷ [])) }
{
    if text.is_empty() {
        return Ok(());
    }
    if !out.is_empty() {
        out.push_str(",")?;
    }
    out.push_str(text)
}

// The row of the node at a place, where no edge is followed any more.
fn row_of(alloc: Global, columns: &[Column], place: usize) -> Mem<Str>
    ensures { IfOk result (λ row. row ≡ own_row columns.now place) }
{
    let mut out = Str::from_string(String::new(alloc));
    for column in columns {
        add_text(&mut out, column.own(place))?;
    }
    Ok(out)
}

// Those of all places below `count`.
fn rows_of(alloc: Global, columns: &[Column], count: usize) -> Mem<Vec<Str>>
    ensures { IfOk result (λ rows. (place : ℕ) (row : List ℕ) → slice_get rows.items place ≡ Some row → row ≡ own_row columns.now place) }
{
    let mut rows = Vec::with_capacity(alloc, count)?;
    for place in 0..count {
        rows.push(row_of(alloc, columns, place)?)?;
    }
    Ok(rows)
}

impl Reach {
    /// How near the places below `count` are, where the nodes to which columns lead are below `count`, and paths have at
    /// most `depth` nodes. From `depth` edges on it isn't told how many there are.
    ///
    /// It goes over all lists once for each edge of the longest way that is told, so it takes little time for a graph in
    /// which names are near. What a node shows of itself is put together here once, so that a walk that ends at it doesn't go over
    /// all columns each time. The error is want of memory.
    pub fn of(alloc: Global, columns: &[Column], count: usize, depth: u32) -> Mem<Reach>
        ensures { IfOk result (λ reach. AreLeast reach columns.now) }
    {
        let most = u8::try_from(depth).unwrap_or(u8::MAX);
        let mut near = begun(alloc, columns, count, most)?;
        for _edge in 0..depth {
            if !bring_near(columns, &mut near) {
                break;
            }
        }
        if !are_least(columns, near.as_slice()) {
            near = Vec::new(alloc);
        }
        let rows = rows_of(alloc, columns, count)?;
        Ok(Reach { near, rows })
    }

    /// How many places there are.
    pub(crate) fn len(&self) -> usize
        ensures { result ≡ length self.now.edges }
    {
        self.near.len()
    }

    /// How many edges lead from a place at least to one that shows something of itself, or fewer.
    pub(crate) fn edges(&self, place: usize) -> u8
        ensures { result ≡ slice_index_or self.now.edges place 0 }
    {
        edges_at(self.near.as_slice(), place)
    }

    /// The row of the node at a place, where no edge is followed any more. None behind the last.
    pub(crate) fn row(&self, place: usize) -> Option<&Str>
        ensures { option_map (λ row. row.now) result ≡ slice_get self.now.rows place }
    {
        self.rows.as_slice().get(place)
    }
}
