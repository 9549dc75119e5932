// The rows of a recursion in which nodes come again: what a node unfolds to depends on how much is left alone.
ghost use Rattle.std.specs.Prelude.{◌≡◌, ℕ, ◌+◌, ◌<◌, ◌++◌, ◌∷◌, [], true, List as Items, Some, length, map, flat_map, slice_get, option_map, IfOk, OnOk, IsErrOf};
ghost use Rattle.std.specs.Ordering.{nat_cmp};
ghost use Rattle.dg_values.specs.Ascending.{ascending};
ghost use Rattle.dg_check.specs.declared.vars.Variable.{Variable as Known};
ghost use Rattle.dg_tree.specs.Texts.{key_text, field_text};
ghost use Rattle.dg_level.specs.Columns.{FieldsOf, ShowsBy};
ghost use Rattle.dg_level.specs.Looping.{PieceOf, own_trees, leads_of, lists_as, lists_over, planned_piece, planned_pieces, pieces_by, piece_fields, level_fields, nodes_in, nodes_of_lists, nodes_fetched, IsFetched, AreFetched, AreBelow};
ghost use Rattle.dg_level.specs.Rows.{total, row_text, with_fields, AreOfLevel};
ghost use Rattle.dg_level.specs.Unfolding.{edge, unfolded};

use crate::Rows;
use crate::column::Content;
use crate::columns::{bare_content, copy_edge, value_content};
use crate::keys::key_text;
use crate::left::Left;
use crate::lists::{list_at, lists_of};
use crate::sorts::{is_single, leads_to_nodes, sort_of};
use crate::writing::push_column;
use dg_check::{Field, Item, Vars};
use dg_graph::Snapshot;
use dg_parse::{QField, QItem};
use dg_tree::TreeFault;
use dg_uids::Uids;
use dg_values::{List, Mem, OutOfMemory, Steps, Str};
use std::alloc::Global;
use std::sync::ledger::Ledger;

/// The lists of nodes to which an edge leads from the nodes of a level.
#[derive(Drop)]
pub struct Lists {
    /// Whether a list has one node at most.
    pub single: bool,
    /// The list of each node, in their order.
    pub lists: Vec<List<u64>>,
}

/// What is fetched for a field of a recursion, of the nodes of a level.
#[derive(Drop)]
pub struct Fetched {
    /// The text of its key.
    pub key: Str,
    /// What nodes show of themselves.
    pub content: Content,
    /// The nodes to which it leads, where it leads to nodes.
    pub lists: Option<Lists>,
}

// What an item shows of nodes themselves.
fn own_content<S: Snapshot>(alloc: Global, snap: &S, item: &QItem, kept: &Item) -> Mem<Content>
    ensures { (vars : Items Known) (nodes : Items ℕ) → IfOk result (λ content. ShowsBy (S.graph snap.now) vars nodes content (own_trees (S.declared snap.now) (S.graph snap.now) vars item.now kept.now)) }
{
    match item {
        QItem::Uid => Ok(Content::Uid),
        QItem::CountUid | QItem::Agg { .. } => Ok(Content::Nothing),
        QItem::Count(edge) => Ok(Content::Count(copy_edge(alloc, edge)?)),
        QItem::Val(_) => Ok(value_content(kept)),
        QItem::Edge { edge, .. } => bare_content(alloc, snap, edge, kept, Left::Unknown),
    }
}

// The lists to which an item leads, where edges are followed at all.
fn lists_further<S: Snapshot, L: Ledger>(
    alloc: Global,
    snap: &S,
    further: bool,
    item: &QItem,
    kept: &Item,
    vars: &Vars,
    nodes: &[u64],
    reads: &mut Steps<L>,
) -> Mem<Option<Lists>>
    ensures { IfOk result (λ found. option_map lists_as found ≡ option_map (lists_over nodes.now) (leads_of further (S.declared snap.now) (S.graph snap.now) vars.now.variables item.now kept.now)) }
{
    if !further {
        return Ok(None);
    }
    let QItem::Edge { edge, args, .. } = item else {
        return Ok(None);
    };
    let Item::Edge {
        orders,
        filters,
        ..
    } = kept
    else {
        return Ok(None);
    };
    let sort = sort_of(snap.schema().lookup(edge.pred.as_str()), edge.back);
    if !leads_to_nodes(sort) {
        return Ok(None);
    }
    let single = is_single(sort);
    let lists = lists_of(
        alloc,
        snap,
        single,
        edge,
        args.as_slice(),
        orders.as_slice(),
        filters.as_slice(),
        vars,
        nodes,
        reads,
    )?;
    Ok(Some(Lists { single, lists }))
}

// What is fetched for a field.
fn fetched_one<S: Snapshot, L: Ledger>(
    alloc: Global,
    snap: &S,
    further: bool,
    field: &QField,
    kept: &Field,
    vars: &Vars,
    nodes: &[u64],
    reads: &mut Steps<L>,
) -> Mem<Fetched>
    ensures { IfOk result (λ fetched. IsFetched (S.graph snap.now) vars.now.variables nodes.now fetched (planned_piece further (S.declared snap.now) (S.graph snap.now) vars.now.variables field.now kept.now)) }
{
    let key = key_text(alloc, field)?;
    let content = own_content(alloc, snap, &field.item, &kept.item)?;
    let lists = lists_further(
        alloc,
        snap,
        further,
        &field.item,
        &kept.item,
        vars,
        nodes,
        reads,
    )?;
    Ok(Fetched {
        key,
        content,
        lists,
    })
}

// Adds what is fetched for a field.
fn add(all: &mut Vec<Fetched>, fetched: Fetched) -> Mem<()>
    ensures { OnOk result (all.new.items ≡ all.old.items ++ fetched ∷ []) }
{
    Ok(all.push(fetched)?)
}

/// What is fetched for each field. The error is want of memory.
pub fn fetched_all<S: Snapshot, L: Ledger>(
    alloc: Global,
    snap: &S,
    further: bool,
    fields: &[QField],
    kept: &[Field],
    vars: &Vars,
    nodes: &[u64],
    reads: &mut Steps<L>,
) -> Mem<Vec<Fetched>>
    ensures { IfOk result (λ all. AreFetched (S.graph snap.now) vars.now.variables nodes.now all.items (planned_pieces further (S.declared snap.now) (S.graph snap.now) vars.now.variables fields.now kept.now)) }
{
    let mut all = Vec::new(alloc);
    for (place, field) in fields.iter().enumerate() {
        if place >= kept.len() {
            return Ok(all);
        }
        let part = &kept[place];
        let fetched = fetched_one(alloc, snap, further, field, part, vars, nodes, reads)?;
        add(&mut all, fetched)?;
    }
    Ok(all)
}

// Adds all nodes of some lists.
fn gather(found: &mut Vec<u64>, lists: &[List<u64>]) -> Mem<()>
    ensures { OnOk result (found.new.items ≡ found.old.items ++ flat_map (λ list. list) lists.now) }
{
    for list in lists {
        found.extend_from_slice(list.as_slice())?;
    }
    Ok(())
}

// Adds all nodes to which a field leads.
fn gather_field(found: &mut Vec<u64>, lists: &Option<Lists>) -> Mem<()>
    ensures { OnOk result (found.new.items ≡ found.old.items ++ nodes_of_lists lists.now) }
{
    match lists {
        None => Ok(()),
        Some(lists) => gather(found, lists.lists.as_slice()),
    }
}

/// The level below: all nodes to which fields lead. The error is want of memory.
pub fn level_below(alloc: Global, all: &[Fetched]) -> Mem<Uids>
    ensures { IfOk result (λ uids. uids ≡ ascending nat_cmp (nodes_fetched all.now)) }
{
    let mut found = Vec::new(alloc);
    for fetched in all {
        gather_field(&mut found, &fetched.lists)?;
    }
    Ok(Uids::gathered(found))
}

// Adds the nodes of a list that show something, behind the text of a key: one by itself, or all as an array.
fn push_list(
    rows: &mut Rows,
    key: &str,
    single: bool,
    list: &[u64],
    level: &Uids,
    below: &Rows,
) -> Result<(), TreeFault>
    ensures ok { (name : Items ℕ) (at : FieldsOf) → key.now ≡ key_text name → below.now.rows ≡ map (λ n. row_text (at n)) level.now → AreOfLevel level.now list.now
        → OnOk result (rows.new.begun ≡ with_fields rows.old.begun (map field_text (piece_fields at (edge name single list.now)))) }
    ensures rows { rows.new.rows ≡ rows.old.rows }
    ensures limit { rows.new.limit ≡ rows.old.limit }
    ensures too_large { (name : Items ℕ) (at : FieldsOf) → key.now ≡ key_text name → below.now.rows ≡ map (λ n. row_text (at n)) level.now → AreOfLevel level.now list.now
        → IsErrOf result TreeFault.TooLarge → rows.old.limit < total rows.old.rows + length (with_fields rows.old.begun (map field_text (piece_fields at (edge name single list.now)))) }
{
    if single {
        return rows.object_field(key, list, level, below);
    }
    rows.array_field(key, &[], list, level, below)
}

// Adds what a field shows at a node, which stands at this place of the level.
fn push_field<S: Snapshot, L: Ledger>(
    alloc: Global,
    snap: &S,
    rows: &mut Rows,
    fetched: &Fetched,
    level: &Uids,
    below: &Rows,
    vars: &Vars,
    place: usize,
    node: u64,
    reads: &mut Steps<L>,
) -> Result<(), TreeFault>
    ensures ok { (nodes : Items ℕ) (piece : PieceOf) (at : FieldsOf) → IsFetched (S.graph snap.now) vars.now.variables nodes fetched.now piece → slice_get nodes place ≡ Some node
        → below.now.rows ≡ map (λ n. row_text (at n)) level.now → AreOfLevel level.now (nodes_in (piece node))
        → OnOk result (rows.new.begun ≡ with_fields rows.old.begun (map field_text (piece_fields at (piece node)))) }
    ensures rows { rows.new.rows ≡ rows.old.rows }
    ensures limit { rows.new.limit ≡ rows.old.limit }
    ensures too_large { (nodes : Items ℕ) (piece : PieceOf) (at : FieldsOf) → IsFetched (S.graph snap.now) vars.now.variables nodes fetched.now piece → slice_get nodes place ≡ Some node
        → below.now.rows ≡ map (λ n. row_text (at n)) level.now → AreOfLevel level.now (nodes_in (piece node))
        → IsErrOf result TreeFault.TooLarge → rows.old.limit < total rows.old.rows + length (with_fields rows.old.begun (map field_text (piece_fields at (piece node)))) }
{
    let key = fetched.key.as_str();
    match &fetched.lists {
        None => push_column(
            alloc,
            snap,
            rows,
            key,
            &fetched.content,
            vars,
            place,
            node,
            reads,
        ),
        Some(lists) => {
            let list = list_at(lists.lists.as_slice(), place);
            push_list(rows, key, lists.single, list, level, below)
        }
    }
}

// Adds what fields show at a node, as a row.
fn push_row<S: Snapshot, L: Ledger>(
    alloc: Global,
    snap: &S,
    rows: &mut Rows,
    all: &[Fetched],
    level: &Uids,
    below: &Rows,
    vars: &Vars,
    place: usize,
    node: u64,
    reads: &mut Steps<L>,
) -> Result<(), TreeFault>
    requires { rows.old.begun ≡ [] }
    ensures ok { (nodes : Items ℕ) (pieces : Items PieceOf) (at : FieldsOf) → AreFetched (S.graph snap.now) vars.now.variables nodes all.now pieces → slice_get nodes place ≡ Some node
        → below.now.rows ≡ map (λ n. row_text (at n)) level.now → AreBelow level.now pieces node
        → OnOk result (rows.new.rows ≡ rows.old.rows ++ row_text (level_fields pieces at node) ∷ []) }
    ensures begun { OnOk result (rows.new.begun ≡ []) }
    ensures limit { rows.new.limit ≡ rows.old.limit }
    ensures too_large { (nodes : Items ℕ) (pieces : Items PieceOf) (at : FieldsOf) → AreFetched (S.graph snap.now) vars.now.variables nodes all.now pieces → slice_get nodes place ≡ Some node
        → below.now.rows ≡ map (λ n. row_text (at n)) level.now → AreBelow level.now pieces node
        → IsErrOf result TreeFault.TooLarge → rows.old.limit < total (rows.old.rows ++ row_text (level_fields pieces at node) ∷ []) }
{
    for fetched in all {
        push_field(
            alloc, snap, rows, fetched, level, below, vars, place, node, reads,
        )?;
    }
    Ok(rows.close()?)
}

// The rows of nodes, by the rows of the level below.
fn rows_above<S: Snapshot, L: Ledger>(
    alloc: Global,
    snap: &S,
    limit: usize,
    all: &[Fetched],
    level: &Uids,
    below: &Rows,
    vars: &Vars,
    nodes: &[u64],
    reads: &mut Steps<L>,
) -> Result<Rows, TreeFault>
    ensures rows { (pieces : Items PieceOf) (at : FieldsOf) → AreFetched (S.graph snap.now) vars.now.variables nodes.now all.now pieces → level.now ≡ ascending nat_cmp (nodes_fetched all.now)
        → below.now.rows ≡ map (λ n. row_text (at n)) level.now
        → IfOk result (λ rows. rows.rows ≡ map (λ n. row_text (level_fields pieces at n)) nodes.now) }
    ensures limit { IfOk result (λ rows. rows.limit ≡ limit) }
    ensures begun { IfOk result (λ rows. rows.begun ≡ []) }
    ensures too_large { (pieces : Items PieceOf) (at : FieldsOf) → AreFetched (S.graph snap.now) vars.now.variables nodes.now all.now pieces → level.now ≡ ascending nat_cmp (nodes_fetched all.now)
        → below.now.rows ≡ map (λ n. row_text (at n)) level.now
        → IsErrOf result TreeFault.TooLarge → limit < total (map (λ n. row_text (level_fields pieces at n)) nodes.now) }
{
    let mut rows = Rows::within(alloc, limit);
    for (place, node) in nodes.iter().enumerate() {
        push_row(
            alloc, snap, &mut rows, all, level, below, vars, place, *node, reads,
        )?;
    }
    Ok(rows)
}

/// What fields unfold to from the nodes of a level, each in its own row, where so many edges more may be followed and nodes come
/// again. It goes level by level: the nodes to which any field leads from any node are the level below, whose rows are made once.
///
/// # Errors
///
/// `TooLarge` only where all rows together have more bytes than the limit, and else `OutOfMemory` for want of memory.
pub fn looped_rows<S: Snapshot, L: Ledger>(
    alloc: Global,
    snap: &S,
    limit: usize,
    left: u32,
    fields: &[QField],
    kept: &[Field],
    vars: &Vars,
    nodes: &[u64],
    reads: &mut Steps<L>,
) -> Result<Rows, TreeFault>
    ensures rows { IfOk result (λ rows. rows.rows ≡ map (λ n. row_text (unfolded (pieces_by (planned_pieces true (S.declared snap.now) (S.graph snap.now) vars.now.variables fields.now kept.now)) true left [] n)) nodes.now) }
    ensures limit { IfOk result (λ rows. rows.limit ≡ limit) }
    ensures begun { IfOk result (λ rows. rows.begun ≡ []) }
    ensures too_large { IsErrOf result TreeFault.TooLarge → limit < total (map (λ n. row_text (unfolded (pieces_by (planned_pieces true (S.declared snap.now) (S.graph snap.now) vars.now.variables fields.now kept.now)) true left [] n)) nodes.now) }
{
    let all = fetched_all(alloc, snap, left > 0, fields, kept, vars, nodes, reads)?;
    let level = level_below(alloc, all.as_slice())?;
    if left == 0 {
        let none = Rows::within(alloc, limit);
        return rows_above(
            alloc,
            snap,
            limit,
            all.as_slice(),
            &level,
            &none,
            vars,
            nodes,
            reads,
        );
    }
    let below = looped_rows(
        alloc,
        snap,
        limit,
        left - 1,
        fields,
        kept,
        vars,
        level.as_slice(),
        reads,
    )?;
    rows_above(
        alloc,
        snap,
        limit,
        all.as_slice(),
        &level,
        &below,
        vars,
        nodes,
        reads,
    )
}
