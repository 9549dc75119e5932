// The nodes that a cascade leaves: those at which no field is missing.
ghost use Rattle.std.specs.Prelude.{◌≡◌, ℕ, Bool, ◌++◌, ◌∷◌, [], List as Items, Option, map, flat_map, filter, is_some, option_copied, IfOk, OnOk};
ghost use Rattle.std.specs.List.{list_any};
ghost use Rattle.std.specs.Ordering.{nat_cmp};
ghost use Rattle.dg_values.specs.Ascending.{ascending, has};
ghost use Rattle.dg_graph.specs.Graphs.{objects};
ghost use Rattle.dg_parse.specs.declared.query.QDir.{QDir};
ghost use Rattle.dg_parse.specs.declared.query.QItem.TheVariants as items;
ghost use Rattle.dg_check.specs.declared.vars.Variable.{Variable as Known};
ghost use Rattle.dg_check.specs.Vars.{value_at};
ghost use Rattle.dg_check.specs.declared.parts.Item.TheViews.{out-Item};
ghost use Rattle.dg_level.specs.Answers.{values_shown, shown};
ghost use Rattle.dg_level.specs.Known.{values_by};
ghost use Rattle.dg_level.specs.declared.left.Left.TheVariants as lefts;
ghost use Rattle.dg_level.specs.Left.{TellsIn, IsLeft, AreLeft, IsLeftIn};
ghost use Rattle.dg_level.specs.Shown.{in_braces, remaining, some_trees};
ghost use Rattle.dg_level.specs.Planned.{value_there, planned_there};
ghost use Rattle.dg_level.specs.Levels.{planned_item, kept_there};

use crate::known::values_read;
use crate::left::Left;
use crate::lists::{list_at, lists_of, nodes_below};
use crate::sorts::{is_single, leads_to_nodes, sort_of};
use dg_check::{Field, Item, Vars};
use dg_funcs::value_at;
use dg_graph::Snapshot;
use dg_parse::{QArg, QEdge, QField, QItem};
use dg_schema::PredDef;
use dg_uids::Uids;
use dg_values::{List, Mem, OutOfMemory, Steps, Value};
use std::alloc::Global;
use std::sync::ledger::Ledger;

/// No node.
pub fn no_nodes(alloc: Global) -> Uids
    ensures { result ≡ [] }
{
    Uids::gathered(Vec::new(alloc))
}

// Those at which the variable at a place has a value.
fn nodes_valued(alloc: Global, vars: &Vars, place: usize, nodes: &Uids) -> Mem<Uids>
    ensures { IfOk result (λ uids. uids ≡ filter (λ n. is_some (value_at vars.now.variables place n)) nodes.now) }
{
    let mut found = Vec::new(alloc);
    for node in nodes.as_slice() {
        if value_at(vars, place, *node).is_some() {
            found.push(*node)?;
        }
    }
    Ok(Uids::gathered(found))
}

// Those at which a variable has a value, as it is kept.
fn nodes_with_value(alloc: Global, kept: &Item, vars: &Vars, nodes: &Uids) -> Mem<Uids>
    ensures { IfOk result (λ uids. uids ≡ filter (λ n. value_there vars.now.variables n (out-Item kept.now)) nodes.now) }
{
    match kept {
        Item::Val(place) => nodes_valued(alloc, vars, *place, nodes),
        Item::Plain | Item::Edge { .. } => Ok(no_nodes(alloc)),
    }
}

// Whether a list has one of these nodes.
fn has_one(list: &[u64], whole: &Uids) -> bool
    ensures { result ≡ list_any (has nat_cmp whole.now) list.now }
{
    list.iter().any(|node| whole.has(*node))
}

// Those whose own list has one of these nodes.
fn nodes_leading(alloc: Global, nodes: &Uids, lists: &[List<u64>], whole: &Uids) -> Mem<Uids>
    ensures { (list : ℕ → Items ℕ) → lists.now ≡ map list nodes.now → IfOk result (λ uids. uids ≡ filter (λ n. list_any (has nat_cmp whole.now) (list n)) nodes.now) }
{
    let mut found = Vec::new(alloc);
    let uids = nodes.as_slice();
    for (place, node) in uids.iter().enumerate() {
        if has_one(list_at(lists, place), whole) {
            found.push(*node)?;
        }
    }
    Ok(Uids::gathered(found))
}

/// The nodes that a cascade leaves, and what was learned about those below them.
#[derive(Drop)]
pub struct Whole {
    /// The nodes.
    pub nodes: Uids,
    /// What is known for them under each field.
    pub inside: List<Left>,
}

// Those that one field leaves.
#[derive(Drop)]
struct With {
    // The nodes.
    nodes: Uids,
    // What is known for them under the field.
    left: Left,
}

// Nodes under a field of which nothing is known.
fn with_nodes(nodes: Uids) -> With
    ensures { (result.nodes ≡ nodes) × (result.left ≡ lefts.Unknown) }
{
    With {
        nodes,
        left: Left::Unknown,
    }
}

// Whether values show something.
fn shows_some(values: &[Value]) -> bool
    ensures { (list : Bool) → result ≡ some_trees (values_shown list values.now) }
{
    !values.is_empty()
}

// Adds a node and its values to others, where it has any.
fn note(found: &mut Vec<u64>, all: &mut List<List<Value>>, node: u64, values: Vec<Value>) -> Mem<()>
    ensures found { (list : Bool) (f : ℕ → Items Value) → values.items ≡ f node → OnOk result (found.new.items ≡ found.old.items ++ filter (λ n. some_trees (values_shown list (f n))) (node ∷ [])) }
    ensures all { (f : ℕ → Items Value) → values.items ≡ f node → all.old ≡ map f found.old.items → OnOk result (all.new ≡ map f found.new.items) }
{
    if !shows_some(values.as_slice()) {
        return Ok(());
    }
    found.push(node)?;
    Ok(all.push(List::from_vec(values))?)
}

// Those that have values by a predicate, and these.
fn nodes_read<S: Snapshot, L: Ledger>(
    alloc: Global,
    snap: &S,
    pred: &str,
    nodes: &Uids,
    reads: &mut Steps<L>,
) -> Mem<With>
    ensures nodes { (list : Bool) → IfOk result (λ with. with.nodes ≡ filter (λ n. some_trees (values_shown list (values_by (S.graph snap.now) pred.now n))) nodes.now) }
    ensures left { (schema : Items PredDef) (vars : Items Known) (e : QEdge) (args : Items QArg) (dirs : Items QDir) (fields : Option (Items QField)) (k : Item) → e.pred ≡ pred.now → IfOk result (λ with. IsLeft schema (S.graph snap.now) vars (items.Edge e args dirs fields) k nodes.now with.left) }
{
    let mut found = Vec::new(alloc);
    let mut values = List::new(alloc);
    for node in nodes.as_slice() {
        let here = values_read(alloc, snap, pred, *node, reads)?;
        note(&mut found, &mut values, *node, here)?;
    }
    let of = Uids::gathered(found);
    Ok(With {
        nodes: of.copy(alloc)?,
        left: Left::Values { of, values },
    })
}

// Those that have something to show by it, and what is known of them then. What isn't declared shows nothing.
fn nodes_with_values<S: Snapshot, L: Ledger>(
    alloc: Global,
    snap: &S,
    definition: Option<&PredDef>,
    pred: &str,
    nodes: &Uids,
    reads: &mut Steps<L>,
) -> Mem<With>
    ensures nodes { IfOk result (λ with. with.nodes ≡ filter (λ n. some_trees (shown (option_copied definition.entry) (objects (S.graph snap.now) pred.now n))) nodes.now) }
    ensures left { (schema : Items PredDef) (vars : Items Known) (e : QEdge) (args : Items QArg) (dirs : Items QDir) (fields : Option (Items QField)) (k : Item) → e.pred ≡ pred.now → IfOk result (λ with. IsLeft schema (S.graph snap.now) vars (items.Edge e args dirs fields) k nodes.now with.left) }
{
    match definition {
        None => Ok(with_nodes(no_nodes(alloc))),
        Some(_) => nodes_read(alloc, snap, pred, nodes, reads),
    }
}

/// The nodes of a set at which none of the fields is missing. A value is missing where the node has none, an edge where it has
/// neither a value nor a node that is whole itself; nothing else is ever missing.
///
/// It goes level by level: what one field leaves is asked for the next, and each node of a level below is asked once. What it
/// finds out about the levels below is answered with the nodes. The error is want of memory.
#[cycle(whole)]
pub fn whole_nodes<S: Snapshot, L: Ledger>(
    alloc: Global,
    snap: &S,
    fields: &[QField],
    kept: &[Field],
    vars: &Vars,
    nodes: Uids,
    reads: &mut Steps<L>,
) -> Mem<Whole>
    ensures nodes { IfOk result (λ whole. whole.nodes ≡ filter (planned_there (S.declared snap.now) (S.graph snap.now) vars.now.variables fields.now kept.now) nodes) }
    ensures inside { IfOk result (λ whole. AreLeft (S.declared snap.now) (S.graph snap.now) vars.now.variables fields.now kept.now whole.nodes whole.inside) }
{
    let mut left = nodes;
    let mut inside = List::new(alloc);
    for (place, field) in fields.iter().enumerate() {
        if place >= kept.len() {
            return Ok(Whole {
                nodes: left,
                inside,
            });
        }
        let part = &kept[place];
        let with = nodes_with(alloc, snap, &field.item, &part.item, vars, left, reads)?;
        left = with.nodes;
        inside.push(with.left)?;
    }
    Ok(Whole {
        nodes: left,
        inside,
    })
}

// Those at which an item isn't missing.
#[cycle(whole)]
fn nodes_with<S: Snapshot, L: Ledger>(
    alloc: Global,
    snap: &S,
    item: &QItem,
    kept: &Item,
    vars: &Vars,
    nodes: Uids,
    reads: &mut Steps<L>,
) -> Mem<With>
    ensures nodes { IfOk result (λ with. with.nodes ≡ filter ((planned_item (S.declared snap.now) (S.graph snap.now) vars.now.variables item.now).there kept.now) nodes) }
    ensures left { IfOk result (λ with. IsLeft (S.declared snap.now) (S.graph snap.now) vars.now.variables item.now kept.now nodes with.left) }
{
    match item {
        QItem::Uid | QItem::CountUid | QItem::Count(_) | QItem::Agg { .. } => Ok(with_nodes(nodes)),
        QItem::Val(_) => Ok(with_nodes(nodes_with_value(alloc, kept, vars, &nodes)?)),
        QItem::Edge {
            edge,
            args,
            fields,
            ..
        } => match fields {
            None => nodes_with_edge(
                alloc,
                snap,
                edge,
                args.as_slice(),
                &[],
                kept,
                vars,
                nodes,
                reads,
            ),
            Some(braces) => nodes_with_edge(
                alloc,
                snap,
                edge,
                args.as_slice(),
                braces.as_slice(),
                kept,
                vars,
                nodes,
                reads,
            ),
        },
    }
}

// Those at which an edge isn't missing: it has values, or a node of its list is whole, as each is where there are no braces.
#[cycle(whole)]
fn nodes_with_edge<S: Snapshot, L: Ledger>(
    alloc: Global,
    snap: &S,
    edge: &QEdge,
    args: &[QArg],
    braces: &[QField],
    kept: &Item,
    vars: &Vars,
    nodes: Uids,
    reads: &mut Steps<L>,
) -> Mem<With>
    ensures nodes { IfOk result (λ with. with.nodes ≡ filter (kept_there (S.declared snap.now) (S.graph snap.now) vars.now.variables edge.now args.now braces.now (out-Item kept.now)) nodes) }
    ensures left { (dirs : Items QDir) (fields : Option (Items QField)) → in_braces fields ≡ braces.now → IfOk result (λ with. IsLeft (S.declared snap.now) (S.graph snap.now) vars.now.variables (items.Edge edge.now args.now dirs fields) kept.now nodes with.left) }
{
    let Item::Edge {
        orders,
        filters,
        fields: inner,
    } = kept
    else {
        return Ok(with_nodes(no_nodes(alloc)));
    };
    let definition = snap.schema().lookup(edge.pred.as_str());
    let sort = sort_of(definition, edge.back);
    if !leads_to_nodes(sort) {
        return nodes_with_values(alloc, snap, definition, edge.pred.as_str(), &nodes, reads);
    }
    let lists = lists_of(
        alloc,
        snap,
        is_single(sort),
        edge,
        args,
        orders.as_slice(),
        filters.as_slice(),
        vars,
        nodes.as_slice(),
        reads,
    )?;
    let level = nodes_below(alloc, lists.as_slice())?;
    let below = whole_nodes(alloc, snap, braces, inner.as_slice(), vars, level, reads)?;
    let leading = nodes_leading(alloc, &nodes, lists.as_slice(), &below.nodes)?;
    Ok(With {
        nodes: leading,
        left: Left::Nodes {
            of: nodes,
            lists: List::from_vec(lists),
            whole: below.nodes,
            inside: below.inside,
        },
    })
}

/// The nodes of a list, as a set. The error is want of memory.
pub fn level_of(alloc: Global, list: &[u64]) -> Mem<Uids>
    ensures { IfOk result (λ uids. uids ≡ ascending nat_cmp list.now) }
{
    Ok(Uids::gathered(Vec::from_slice(alloc, list)?))
}

// The nodes of a list that are in a set.
fn nodes_in(alloc: Global, list: &[u64], whole: &Uids) -> Mem<Vec<u64>>
    ensures { IfOk result (λ left. left.items ≡ filter (has nat_cmp whole.now) list.now) }
{
    let mut left = Vec::new(alloc);
    for node in list {
        if whole.has(*node) {
            left.push(*node)?;
        }
    }
    Ok(left)
}

// The same of each list.
fn lists_in(alloc: Global, lists: &[List<u64>], whole: &Uids) -> Mem<Vec<List<u64>>>
    ensures { IfOk result (λ made. made.items ≡ map (filter (has nat_cmp whole.now)) lists.now) }
{
    let mut made = Vec::new(alloc);
    for list in lists {
        let left = nodes_in(alloc, list.as_slice(), whole)?;
        made.push(List::from_vec(left))?;
    }
    Ok(made)
}

/// A list without the nodes that a cascade drops, and what is known about those that are left.
#[derive(Drop)]
pub struct LeftList {
    /// The list.
    pub list: Vec<u64>,
    /// What is known for its nodes under each field.
    pub inside: List<Left>,
}

/// The nodes of a list that remain: where a cascade drops nodes, those at which none of the fields is missing. What is found out
/// about them is answered too. The error is want of memory.
pub fn left_list<S: Snapshot, L: Ledger>(
    alloc: Global,
    snap: &S,
    cascade: bool,
    braces: &[QField],
    inner: &[Field],
    list: Vec<u64>,
    vars: &Vars,
    reads: &mut Steps<L>,
) -> Mem<LeftList>
    ensures list { IfOk result (λ left. left.list.items ≡ remaining cascade (planned_there (S.declared snap.now) (S.graph snap.now) vars.now.variables braces.now inner.now) list.items) }
    ensures inside { IfOk result (λ left. AreLeft (S.declared snap.now) (S.graph snap.now) vars.now.variables braces.now inner.now (ascending nat_cmp left.list.items) left.inside) }
{
    if !cascade {
        return Ok(LeftList {
            list,
            inside: List::new(alloc),
        });
    }
    let level = level_of(alloc, list.as_slice())?;
    let whole = whole_nodes(alloc, snap, braces, inner, vars, level, reads)?;
    let list = nodes_in(alloc, list.as_slice(), &whole.nodes)?;
    Ok(LeftList {
        list,
        inside: whole.inside,
    })
}

/// Lists of the nodes of a level, without the nodes that a cascade drops, and what is known about those that are left.
#[derive(Drop)]
pub struct LeftLists {
    /// The lists.
    pub lists: Vec<List<u64>>,
    /// What is known for their nodes under each field.
    pub inside: List<Left>,
}

// Which nodes of lists are whole, as it is known, or else by asking each node once.
fn whole_below<S: Snapshot, L: Ledger>(
    alloc: Global,
    snap: &S,
    braces: &[QField],
    inner: &[Field],
    lists: &[List<u64>],
    vars: &Vars,
    left: Left,
    reads: &mut Steps<L>,
) -> Mem<Whole>
    ensures whole { IsLeftIn (S.declared snap.now) (S.graph snap.now) vars.now.variables braces.now inner.now lists.now left → IfOk result (λ whole. TellsIn (planned_there (S.declared snap.now) (S.graph snap.now) vars.now.variables braces.now inner.now) lists.now whole.nodes) }
    ensures inside { IsLeftIn (S.declared snap.now) (S.graph snap.now) vars.now.variables braces.now inner.now lists.now left → IfOk result (λ whole. AreLeft (S.declared snap.now) (S.graph snap.now) vars.now.variables braces.now inner.now whole.nodes whole.inside) }
{
    match left {
        Left::Nodes { whole, inside, .. } => Ok(Whole {
            nodes: whole,
            inside,
        }),
        Left::Unknown | Left::Values { .. } => {
            let level = nodes_below(alloc, lists)?;
            whole_nodes(alloc, snap, braces, inner, vars, level, reads)
        }
    }
}

/// The nodes of the lists of a level that remain: where a cascade drops nodes, those at which none of the fields is missing. What
/// is known of them isn't asked again; else each node of the level below is asked once. The error is want of memory.
pub fn left_lists<S: Snapshot, L: Ledger>(
    alloc: Global,
    snap: &S,
    cascade: bool,
    braces: &[QField],
    inner: &[Field],
    lists: Vec<List<u64>>,
    vars: &Vars,
    left: Left,
    reads: &mut Steps<L>,
) -> Mem<LeftLists>
    ensures lists { IsLeftIn (S.declared snap.now) (S.graph snap.now) vars.now.variables braces.now inner.now lists.items left → IfOk result (λ made. made.lists.items ≡ map (remaining cascade (planned_there (S.declared snap.now) (S.graph snap.now) vars.now.variables braces.now inner.now)) lists.items) }
    ensures inside { IsLeftIn (S.declared snap.now) (S.graph snap.now) vars.now.variables braces.now inner.now lists.items left → IfOk result (λ made. AreLeft (S.declared snap.now) (S.graph snap.now) vars.now.variables braces.now inner.now (ascending nat_cmp (flat_map (λ list. list) made.lists.items)) made.inside) }
{
    if !cascade {
        return Ok(LeftLists {
            lists,
            inside: List::new(alloc),
        });
    }
    let whole = whole_below(
        alloc,
        snap,
        braces,
        inner,
        lists.as_slice(),
        vars,
        left,
        reads,
    )?;
    let lists = lists_in(alloc, lists.as_slice(), &whole.nodes)?;
    Ok(LeftLists {
        lists,
        inside: whole.inside,
    })
}
