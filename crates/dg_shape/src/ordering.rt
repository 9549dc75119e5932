// Lists of nodes put in order by values.
ghost use Rattle.std.specs.Prelude.{◌≡◌, ℕ, Bool, List, Option, ◌∷◌, IfOk, map, option_copied, slice_get};
ghost use Rattle.std.specs.Ordering.{nat_cmp};
ghost use Rattle.dg_values.specs.declared.value.Value.{Value};
ghost use Rattle.dg_values.specs.Ascending.{Ascends};
ghost use Rattle.dg_check.specs.Vars.{value_beside};
ghost use Rattle.dg_shape.specs.Orders.{key_cmp, ordered, meant};

use dg_check::Variable;
use dg_sets::place_of;
use dg_uids::Uids;
use dg_values::{Mem, OutOfMemory, Value, cmp_value};
use std::alloc::Global;
use std::cmp::Ordering;
use std::marker::Model;

/// What a list is ordered by: the values that nodes have, and which comes first.
#[derive(Drop)]
pub struct Key<'a> {
    /// Whether the node of the greatest value comes first.
    pub down: bool,
    /// The values.
    pub values: &'a Variable,
}

// A node with its value by a key, where it has one. Contracts see both.
#[derive(Drop)]
struct Valued<'a> {
    node: u64,
    value: Option<&'a Value>,
}

impl<'a> Model for Valued<'a> {
    ghost use Rattle.std.specs.Prelude.{ℕ, Option, option_copied};
    ghost use Rattle.dg_values.specs.declared.value.Value.{Value as Given};

    ghost Value = { ℕ × Option Given };

    ghost view = { λ valued. (valued.node, option_copied valued.value) };
}

impl<'a> Valued<'a> {
    // A node and its value.
    fn new(node: u64, value: Option<&'a Value>) -> Valued<'a>
        ensures { result ≡ (node, option_copied value.entry) }
    {
        Valued { node, value }
    }

    // The node.
    fn node(&self) -> u64
        ensures { result ≡ self.now.0 }
    {
        self.node
    }

    // Compares the values.
    fn compare(&self, other: &Valued<'a>, down: bool) -> Ordering
        ensures { result ≡ key_cmp down self.now.1 other.now.1 }
    {
        cmp_values(down, self.value, other.value)
    }
}

// Compares two values by a key, of which each may be missing.
fn cmp_values(down: bool, a: Option<&Value>, b: Option<&Value>) -> Ordering
    ensures { result ≡ key_cmp down (option_copied a.entry) (option_copied b.entry) }
{
    match a {
        None => match b {
            None => Ordering::Equal,
            Some(_) => Ordering::Greater,
        },
        Some(a) => match b {
            None => Ordering::Less,
            Some(b) => cmp_either(down, a, b),
        },
    }
}

// Compares two values, the other way round for the greatest first.
fn cmp_either(down: bool, a: &Value, b: &Value) -> Ordering
    ensures { result ≡ key_cmp down (Some a.now) (Some b.now) }
{
    if down {
        cmp_value(b, a)
    } else {
        cmp_value(a, b)
    }
}

// The value at a place.
fn item_at(values: &[Value], at: usize) -> Option<&Value>
    ensures { option_copied result ≡ slice_get values.now at }
{
    values.get(at)
}

// The value that stands beside a node. It looks by halves.
fn value_of<'a>(nodes: &[u64], values: &'a [Value], node: u64) -> Option<&'a Value>
    requires ascend { Ascends nat_cmp nodes.now }
    ensures { option_copied result ≡ value_beside nodes.now values.now node }
{
    match place_of(nodes, &node) {
        Ok(at) => item_at(values, at),
        Err(_) => None,
    }
}

// Each node with its value.
fn with_values<'a>(alloc: Global, nodes: &[u64], values: &'a Variable) -> Mem<Vec<Valued<'a>>>
    ensures { IfOk result (λ v. v.items ≡ map (λ n. (n, value_beside values.now.nodes values.now.values n)) nodes.now) }
{
    let mut out = Vec::with_capacity(alloc, nodes.len())?;
    for node in nodes {
        let value = value_of(values.nodes.as_slice(), values.values.as_slice(), *node);
        out.push(Valued::new(*node, value))?;
    }
    Ok(out)
}

// The nodes alone.
fn without_values(alloc: Global, all: &[Valued]) -> Mem<Vec<u64>>
    ensures { IfOk result (λ v. v.items ≡ map (λ valued. valued.0) all.now) }
{
    let mut out = Vec::with_capacity(alloc, all.len())?;
    for valued in all {
        out.push(valued.node())?;
    }
    Ok(out)
}

// Nodes in the order of a key and then of those by which they stand in order.
fn by_key(alloc: Global, nodes: Vec<u64>, key: &Key) -> Mem<Vec<u64>>
    ensures { (keys : List (Bool × (ℕ → Option Value))) (all : List ℕ) → nodes.items ≡ ordered keys all → IfOk result (λ v. v.items ≡ ordered (meant key.now ∷ keys) all) }
{
    let mut all = with_values(alloc, nodes.as_slice(), key.values)?;
    let down = key.down;
    all.sort_by(|a, b| a.compare(b, down))?;
    without_values(alloc, all.as_slice())
}

/// Nodes in the order of keys: the first tells most, a later one puts in order what those before it leave equal, and at
/// last the lesser number comes first. A node without a value comes last in either direction. The error is want of memory.
pub fn order(alloc: Global, nodes: &Uids, by: &[Key]) -> Mem<Vec<u64>>
    ensures { IfOk result (λ v. v.items ≡ ordered (map meant by.now) nodes.now) }
{
    let mut list = Vec::from_slice(alloc, nodes.as_slice())?;
    for i in 0..by.len() {
        list = by_key(alloc, list, &by[by.len() - 1 - i])?;
    }
    Ok(list)
}
