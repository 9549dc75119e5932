// What the nodes of a level show, field by field, with the levels below.
ghost use Rattle.std.specs.Prelude.{◌≡◌, ℕ, ◌≤◌, ◌<◌, ◌++◌, ◌∷◌, [], List as Items, map, option_copied, IfOk, OnOk, IsErrOf};
ghost use Rattle.dg_graph.specs.declared.change.Triple.{Triple};
ghost use Rattle.dg_graph.specs.Graphs.{objects};
ghost use Rattle.dg_check.specs.declared.parts.Item.TheViews.{out-Item};
ghost use Rattle.dg_check.specs.declared.vars.Variable.{Variable as Known};
ghost use Rattle.dg_level.specs.Answers.{shown};
ghost use Rattle.dg_level.specs.Rows.{total, row_text};
ghost use Rattle.dg_level.specs.Planned.{value_kept, planned_field, planned_at};
ghost use Rattle.dg_level.specs.Columns.{held_by, room_of, bytes_of, IsBelow, ShowsBy, Shows, AreShown};
ghost use Rattle.dg_level.specs.Known.{values_by, KnowsValues};
ghost use Rattle.dg_level.specs.Left.{IsLeft, AreLeft, IsLeftUnder, IsLeftBy};
ghost use Rattle.dg_level.specs.Levels.{trees_of, all_trees, all_fields, below_trees, own_shown, bare_trees, kept_trees, all_bytes};

use crate::Rows;
use crate::column::{Below, Column, Content, held_by, shows_none};
use crate::directives::cascades;
use crate::keys::{counts_of, key_text};
use crate::known::lists_under;
use crate::left::{Left, next_left};
use crate::lists::nodes_below;
use crate::sorts::{Sort, is_single, leads_to_nodes, sort_of};
use crate::whole::left_lists;
use crate::writing::written;
use dg_check::{Field, Filter, Item, OrderKey, Vars};
use dg_graph::Snapshot;
use dg_parse::{QArg, QEdge, QField, QItem};
use dg_schema::PredDef;
use dg_tree::TreeFault;
use dg_values::{List, Mem, OutOfMemory, Steps, Str};
use std::alloc::Global;
use std::sync::ledger::Ledger;

// An equal edge. The error is want of memory.
pub fn copy_edge(alloc: Global, edge: &QEdge) -> Mem<QEdge>
    ensures { IfOk result (λ e. e ≡ edge.now) }
{
    let pred = edge.pred.copy(alloc)?;
    Ok(QEdge {
        back: edge.back,
        pred,
    })
}

// Adds a column.
fn add(columns: &mut Vec<Column>, column: Column) -> Mem<()>
    ensures { OnOk result (columns.new.items ≡ columns.old.items ++ column ∷ []) }
{
    Ok(columns.push(column)?)
}

// The values of a predicate, where an edge by it leads to values. The error is want of memory.
fn values_content(
    alloc: Global,
    sort: Sort,
    definition: Option<&PredDef>,
    pred: &str,
    left: Left,
) -> Mem<Content>
    ensures shows { (graph : Items Triple) (vars : Items Known) (nodes : Items ℕ) → KnowsValues (values_by graph pred.now) left → IfOk result (λ c. ShowsBy graph vars nodes c (λ n. own_shown sort (shown (option_copied definition.entry) (objects graph pred.now n)))) }
    ensures held { IfOk result (λ c. (held_by c ≡ 0) × (room_of c ≡ 0)) }
{
    if sort != Sort::Values {
        return Ok(Content::Nothing);
    }
    match definition {
        None => Ok(Content::Nothing),
        Some(definition) => Ok(Content::Values {
            pred: Str::from_str(alloc, pred)?,
            list: definition.list,
            known: left,
        }),
    }
}

// What is shown under an edge without braces. The error is want of memory.
pub fn bare_content<S: Snapshot>(
    alloc: Global,
    snap: &S,
    edge: &QEdge,
    kept: &Item,
    left: Left,
) -> Mem<Content>
    ensures shows { (vars : Items Known) (nodes : Items ℕ) → KnowsValues (values_by (S.graph snap.now) edge.now.pred) left → IfOk result (λ c. ShowsBy (S.graph snap.now) vars nodes c (bare_trees (S.declared snap.now) (S.graph snap.now) edge.now (out-Item kept.now))) }
    ensures held { IfOk result (λ c. (held_by c ≡ 0) × (room_of c ≡ 0)) }
{
    match kept {
        Item::Plain | Item::Val(_) => Ok(Content::Nothing),
        Item::Edge { .. } => {
            let definition = snap.schema().lookup(edge.pred.as_str());
            let sort = sort_of(definition, edge.back);
            values_content(alloc, sort, definition, edge.pred.as_str(), left)
        }
    }
}

// The value of a variable, as it is kept.
pub fn value_content(kept: &Item) -> Content
    ensures shows { (graph : Items Triple) (vars : Items Known) (nodes : Items ℕ) → ShowsBy graph vars nodes result (λ n. value_kept vars n (out-Item kept.now)) }
    ensures held { (held_by result ≡ 0) × (room_of result ≡ 0) }
{
    match kept {
        Item::Val(place) => Content::Value(*place),
        Item::Plain | Item::Edge { .. } => Content::Nothing,
    }
}

/// What the nodes of a level show, each in its own row. Each list is read once for each node of a level and each field, and
/// the row of a node of the level below is made once, whatever number of nodes lead to it. Where a cascade goes on from above, or
/// an edge begins one, lists lose the nodes at which a field is missing, before anything is made of these. For that the lists below
/// are read where a cascade begins, and values too; they are known in all levels below then, and aren't read again.
///
/// # Errors
///
/// `TooLarge` only where all rows together have more bytes than the limit, and else `OutOfMemory` for want of memory.
#[cycle(level)]
pub fn level_rows<S: Snapshot, L: Ledger>(
    alloc: Global,
    snap: &S,
    limit: usize,
    cascade: bool,
    fields: &[QField],
    kept: &[Field],
    vars: &Vars,
    nodes: &[u64],
    left: List<Left>,
    reads: &mut Steps<L>,
) -> Result<Rows, TreeFault>
    ensures rows { AreLeft (S.declared snap.now) (S.graph snap.now) vars.now.variables fields.now kept.now nodes.now left → IfOk result (λ rows. rows.rows ≡ map (λ n. row_text (planned_at (S.declared snap.now) (S.graph snap.now) vars.now.variables cascade fields.now kept.now n)) nodes.now) }
    ensures limit { IfOk result (λ rows. rows.limit ≡ limit) }
    ensures begun { IfOk result (λ rows. rows.begun ≡ []) }
    ensures too_large { AreLeft (S.declared snap.now) (S.graph snap.now) vars.now.variables fields.now kept.now nodes.now left → IsErrOf result TreeFault.TooLarge → limit < total (map (λ n. row_text (planned_at (S.declared snap.now) (S.graph snap.now) vars.now.variables cascade fields.now kept.now n)) nodes.now) }
{
    let columns = columns_of(
        alloc, snap, limit, cascade, fields, kept, vars, nodes, left, reads,
    )?;
    written(alloc, snap, limit, columns.as_slice(), vars, nodes, reads)
}

// A column for each field. All levels below them are within the limit together.
#[cycle(level)]
fn columns_of<S: Snapshot, L: Ledger>(
    alloc: Global,
    snap: &S,
    limit: usize,
    cascade: bool,
    fields: &[QField],
    kept: &[Field],
    vars: &Vars,
    nodes: &[u64],
    left: List<Left>,
    reads: &mut Steps<L>,
) -> Result<Vec<Column>, TreeFault>
    ensures shown { AreLeft (S.declared snap.now) (S.graph snap.now) vars.now.variables fields.now kept.now nodes.now left → IfOk result (λ columns. AreShown (S.graph snap.now) vars.now.variables nodes.now columns.items (all_fields (S.declared snap.now) (S.graph snap.now) vars.now.variables cascade fields.now kept.now)) }
    ensures too_large { AreLeft (S.declared snap.now) (S.graph snap.now) vars.now.variables fields.now kept.now nodes.now left → IsErrOf result TreeFault.TooLarge → limit < all_bytes (all_trees (S.declared snap.now) (S.graph snap.now) vars.now.variables cascade fields.now kept.now) nodes.now }
{
    let mut columns = Vec::new(alloc);
    let mut used = 0;
    let mut known = left.into_vec().into_iter();
    for (place, field) in fields.iter().enumerate() {
        if place >= kept.len() {
            return Ok(columns);
        }
        let part = &kept[place];
        let column = column_of(
            alloc,
            snap,
            limit - used,
            cascade,
            field,
            part,
            vars,
            nodes,
            next_left(&mut known),
            reads,
        )?;
        used += held_by(&column.content);
        add(&mut columns, column)?;
    }
    Ok(columns)
}

// The column of a field.
#[cycle(level)]
fn column_of<S: Snapshot, L: Ledger>(
    alloc: Global,
    snap: &S,
    limit: usize,
    cascade: bool,
    field: &QField,
    kept: &Field,
    vars: &Vars,
    nodes: &[u64],
    left: Left,
    reads: &mut Steps<L>,
) -> Result<Column, TreeFault>
    ensures shows { IsLeft (S.declared snap.now) (S.graph snap.now) vars.now.variables field.now.item kept.now.item nodes.now left → IfOk result (λ column. Shows (S.graph snap.now) vars.now.variables nodes.now column ((planned_field (S.declared snap.now) (S.graph snap.now) vars.now.variables field.now).at cascade kept.now)) }
    ensures held { IsLeft (S.declared snap.now) (S.graph snap.now) vars.now.variables field.now.item kept.now.item nodes.now left → IfOk result (λ column. held_by column.content ≤ bytes_of (trees_of (S.declared snap.now) (S.graph snap.now) vars.now.variables cascade field.now.item kept.now.item) nodes.now) }
    ensures within { IfOk result (λ column. room_of column.content ≤ limit) }
    ensures too_large { IsLeft (S.declared snap.now) (S.graph snap.now) vars.now.variables field.now.item kept.now.item nodes.now left → IsErrOf result TreeFault.TooLarge → limit < bytes_of (trees_of (S.declared snap.now) (S.graph snap.now) vars.now.variables cascade field.now.item kept.now.item) nodes.now }
{
    let key = key_text(alloc, field)?;
    let content = content_of(
        alloc,
        snap,
        limit,
        cascade,
        &field.item,
        &kept.item,
        vars,
        nodes,
        left,
        reads,
    )?;
    Ok(Column { key, content })
}

// What is shown under a field.
#[cycle(level)]
fn content_of<S: Snapshot, L: Ledger>(
    alloc: Global,
    snap: &S,
    limit: usize,
    cascade: bool,
    item: &QItem,
    kept: &Item,
    vars: &Vars,
    nodes: &[u64],
    left: Left,
    reads: &mut Steps<L>,
) -> Result<Content, TreeFault>
    ensures shows { IsLeft (S.declared snap.now) (S.graph snap.now) vars.now.variables item.now kept.now nodes.now left → IfOk result (λ content. ShowsBy (S.graph snap.now) vars.now.variables nodes.now content (trees_of (S.declared snap.now) (S.graph snap.now) vars.now.variables cascade item.now kept.now)) }
    ensures held { IsLeft (S.declared snap.now) (S.graph snap.now) vars.now.variables item.now kept.now nodes.now left → IfOk result (λ content. held_by content ≤ bytes_of (trees_of (S.declared snap.now) (S.graph snap.now) vars.now.variables cascade item.now kept.now) nodes.now) }
    ensures within { IfOk result (λ content. room_of content ≤ limit) }
    ensures too_large { IsLeft (S.declared snap.now) (S.graph snap.now) vars.now.variables item.now kept.now nodes.now left → IsErrOf result TreeFault.TooLarge → limit < bytes_of (trees_of (S.declared snap.now) (S.graph snap.now) vars.now.variables cascade item.now kept.now) nodes.now }
{
    match item {
        QItem::Uid => Ok(Content::Uid),
        QItem::CountUid | QItem::Agg { .. } => Ok(Content::Nothing),
        QItem::Count(edge) => Ok(Content::Count(copy_edge(alloc, edge)?)),
        QItem::Val(_) => Ok(value_content(kept)),
        QItem::Edge {
            edge,
            args,
            dirs,
            fields,
        } => match fields {
            None => Ok(bare_content(alloc, snap, edge, kept, left)?),
            Some(braces) => edge_content(
                alloc,
                snap,
                limit,
                cascades(cascade, dirs.as_slice()),
                edge,
                args.as_slice(),
                braces.as_slice(),
                kept,
                vars,
                nodes,
                left,
                reads,
            ),
        },
    }
}

// What is shown under an edge, of whose list a cascade drops nodes or doesn't. Where nothing is shown the lists aren't kept.
#[cycle(level)]
fn edge_content<S: Snapshot, L: Ledger>(
    alloc: Global,
    snap: &S,
    limit: usize,
    cascade: bool,
    edge: &QEdge,
    args: &[QArg],
    braces: &[QField],
    kept: &Item,
    vars: &Vars,
    nodes: &[u64],
    left: Left,
    reads: &mut Steps<L>,
) -> Result<Content, TreeFault>
    ensures shows { IsLeftBy (S.declared snap.now) (S.graph snap.now) vars.now.variables edge.now args.now braces.now kept.now nodes.now left → IfOk result (λ content. ShowsBy (S.graph snap.now) vars.now.variables nodes.now content (kept_trees (S.declared snap.now) (S.graph snap.now) vars.now.variables edge.now args.now braces.now cascade (out-Item kept.now))) }
    ensures held { IsLeftBy (S.declared snap.now) (S.graph snap.now) vars.now.variables edge.now args.now braces.now kept.now nodes.now left → IfOk result (λ content. held_by content ≤ bytes_of (kept_trees (S.declared snap.now) (S.graph snap.now) vars.now.variables edge.now args.now braces.now cascade (out-Item kept.now)) nodes.now) }
    ensures within { IfOk result (λ content. room_of content ≤ limit) }
    ensures too_large { IsLeftBy (S.declared snap.now) (S.graph snap.now) vars.now.variables edge.now args.now braces.now kept.now nodes.now left → IsErrOf result TreeFault.TooLarge → limit < bytes_of (kept_trees (S.declared snap.now) (S.graph snap.now) vars.now.variables edge.now args.now braces.now cascade (out-Item kept.now)) nodes.now }
{
    let Item::Edge {
        orders,
        filters,
        fields: inner,
    } = kept
    else {
        return Ok(Content::Nothing);
    };
    let definition = snap.schema().lookup(edge.pred.as_str());
    let sort = sort_of(definition, edge.back);
    if !leads_to_nodes(sort) {
        return Ok(values_content(alloc, sort, definition, edge.pred.as_str(), left)?);
    }
    let below = below_of(
        alloc,
        snap,
        limit,
        cascade,
        is_single(sort),
        braces,
        inner.as_slice(),
        edge,
        args,
        orders.as_slice(),
        filters.as_slice(),
        vars,
        nodes,
        left,
        reads,
    )?;
    if shows_none(&below) {
        return Ok(Content::Nothing);
    }
    Ok(Content::Nodes(below))
}

// The nodes to which an edge leads, without those that a cascade drops, and what they show.
#[cycle(level)]
fn below_of<S: Snapshot, L: Ledger>(
    alloc: Global,
    snap: &S,
    limit: usize,
    cascade: bool,
    single: bool,
    braces: &[QField],
    inner: &[Field],
    edge: &QEdge,
    args: &[QArg],
    orders: &[OrderKey],
    filters: &[Filter],
    vars: &Vars,
    nodes: &[u64],
    left: Left,
    reads: &mut Steps<L>,
) -> Result<Below, TreeFault>
    ensures shows { IsLeftUnder (S.declared snap.now) (S.graph snap.now) vars.now.variables edge.now args.now orders.now filters.now single braces.now inner.now nodes.now left → IfOk result (λ below. IsBelow nodes.now below (below_trees (S.declared snap.now) (S.graph snap.now) vars.now.variables edge.now args.now orders.now filters.now braces.now inner.now single cascade)) }
    ensures limit { IfOk result (λ below. below.rows.limit ≡ limit) }
    ensures begun { IfOk result (λ below. below.rows.begun ≡ []) }
    ensures too_large { IsLeftUnder (S.declared snap.now) (S.graph snap.now) vars.now.variables edge.now args.now orders.now filters.now single braces.now inner.now nodes.now left
        → IsErrOf result TreeFault.TooLarge → limit < bytes_of (below_trees (S.declared snap.now) (S.graph snap.now) vars.now.variables edge.now args.now orders.now filters.now braces.now inner.now single cascade) nodes.now }
{
    let counts = counts_of(alloc, braces)?;
    let lists = lists_under(
        alloc, snap, single, edge, args, orders, filters, vars, nodes, &left, reads,
    )?;
    let made = left_lists(
        alloc, snap, cascade, braces, inner, lists, vars, left, reads,
    )?;
    let level = nodes_below(alloc, made.lists.as_slice())?;
    let rows = level_rows(
        alloc,
        snap,
        limit,
        cascade,
        braces,
        inner,
        vars,
        level.as_slice(),
        made.inside,
        reads,
    )?;
    Ok(Below {
        single,
        counts,
        lists: made.lists,
        level,
        rows,
    })
}
