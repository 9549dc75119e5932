// Columns over the nodes that a recursion reaches, by their places among these.
ghost use Rattle.std.specs.Prelude.{◌≡◌, ℕ, ◌++◌, ◌∷◌, [], List as Items, Some, map, slice_get, IfOk, OnOk};
ghost use Rattle.dg_graph.specs.declared.change.Triple.{Triple};
ghost use Rattle.dg_check.specs.declared.vars.Variable.{Variable as Known};
ghost use Rattle.dg_tree.specs.Texts.{key_text};
ghost use Rattle.dg_level.specs.Columns.{TreesOf, ShowsBy};
ghost use Rattle.dg_level.specs.Looping.{PieceOf, nodes_in, IsFetched, AreFetched};
ghost use Rattle.dg_level.specs.Placing.{leads_from, ArePlaces, AllPlaces, IsPlaced, ArePlaced};
ghost use Rattle.dg_level.specs.Reaching.{is_near, AreSteps};
ghost use Rattle.dg_level.specs.Rows.{row_text};
ghost use Rattle.dg_level.specs.Shown.{under};

use crate::Rows;
use crate::lists::list_at;
use crate::looped::Fetched;
use crate::reaching::{Found, Step};
use crate::writing::push_column;
use dg_check::Vars;
use dg_graph::Snapshot;
use dg_recurse::Column;
use dg_sets::place_of;
use dg_tree::TreeFault;
use dg_uids::Uids;
use dg_values::{List, Mem, OutOfMemory, Steps, Str};
use std::alloc::Global;
use std::sync::ledger::Ledger;

// What a node shows of itself under a field, as the one row.
fn own_row<S: Snapshot, L: Ledger>(
    alloc: Global,
    snap: &S,
    fetched: &Fetched,
    vars: &Vars,
    place: usize,
    node: u64,
    reads: &mut Steps<L>,
) -> Result<Rows, TreeFault>
    ensures { (name : Items ℕ) (nodes : Items ℕ) (shown : TreesOf) → fetched.now.key ≡ key_text name → ShowsBy (S.graph snap.now) vars.now.variables nodes fetched.now.content shown → slice_get nodes place ≡ Some node
        → IfOk result (λ rows. rows.rows ≡ row_text (map (under name) (shown node)) ∷ []) }
{
    let mut rows = Rows::within(alloc, usize::MAX);
    let key = fetched.key.as_str();
    push_column(
        alloc,
        snap,
        &mut rows,
        key,
        &fetched.content,
        vars,
        place,
        node,
        reads,
    )?;
    rows.close()?;
    Ok(rows)
}

// The same as a text. One of more bytes than a number counts can't be had: that is want of memory.
fn own_text<S: Snapshot, L: Ledger>(
    alloc: Global,
    snap: &S,
    fetched: &Fetched,
    vars: &Vars,
    place: usize,
    node: u64,
    reads: &mut Steps<L>,
) -> Mem<Str>
    ensures { (name : Items ℕ) (nodes : Items ℕ) (shown : TreesOf) → fetched.now.key ≡ key_text name → ShowsBy (S.graph snap.now) vars.now.variables nodes fetched.now.content shown → slice_get nodes place ≡ Some node
        → IfOk result (λ text. text ≡ row_text (map (under name) (shown node))) }
{
    match own_row(alloc, snap, fetched, vars, place, node, reads) {
        Ok(rows) => Str::from_str(alloc, rows.get(0)),
        Err(TreeFault::OutOfMemory) => Err(OutOfMemory),
        Err(TreeFault::TooLarge) => Err(OutOfMemory),
    }
}

// What each node of a set shows of itself under a field.
fn own_texts<S: Snapshot, L: Ledger>(
    alloc: Global,
    snap: &S,
    fetched: &Fetched,
    vars: &Vars,
    nodes: &[u64],
    reads: &mut Steps<L>,
) -> Mem<Vec<Str>>
    ensures { (name : Items ℕ) (shown : TreesOf) → fetched.now.key ≡ key_text name → ShowsBy (S.graph snap.now) vars.now.variables nodes.now fetched.now.content shown
        → IfOk result (λ texts. texts.items ≡ map (λ n. row_text (map (under name) (shown n))) nodes.now) }
{
    let mut texts = Vec::new(alloc);
    for (place, node) in nodes.iter().enumerate() {
        let text = own_text(alloc, snap, fetched, vars, place, *node, reads)?;
        texts.push(text)?;
    }
    Ok(texts)
}

// Adds the place of a node, if a set has it.
fn push_place(places: &mut List<usize>, set: &Uids, node: u64) -> Mem<()>
    ensures { OnOk result ((more : Items ℕ) × (places.new ≡ places.old ++ more) × ArePlaces set.now (node ∷ []) more) }
{
    match place_of(set.as_slice(), &node) {
        Ok(place) => Ok(places.push(place)?),
        Err(_) => Ok(()),
    }
}

// The places of those nodes of a list that a set has.
fn places_in(alloc: Global, set: &Uids, nodes: &[u64]) -> Mem<List<usize>>
    ensures { IfOk result (λ places. ArePlaces set.now nodes.now places) }
{
    let mut places = List::new(alloc);
    for node in nodes {
        push_place(&mut places, set, *node)?;
    }
    Ok(places)
}

// The nodes to which the field at one place leads from the node at another, as they were fetched.
fn list_of(all: &[Fetched], field: usize, place: usize) -> &[u64]
    ensures { (graph : Items Triple) (vars : Items Known) (nodes : Items ℕ) (pieces : Items PieceOf) (piece : PieceOf) (node : ℕ) → AreFetched graph vars nodes all.now pieces → slice_get pieces field ≡ Some piece → slice_get nodes place ≡ Some node
        → result.now ≡ nodes_in (piece node) }
{
    if field >= all.len() {
        return &[];
    }
    match &all[field].lists {
        None => &[],
        Some(lists) => list_at(lists.lists.as_slice(), place),
    }
}

// The nodes to which the field at a place leads from a node of which was fetched, and none from another.
fn list_from(steps: &[Step], field: usize, node: u64) -> &[u64]
    ensures { (graph : Items Triple) (vars : Items Known) (pieces : Items PieceOf) (piece : PieceOf) → AreSteps graph vars pieces steps.now → slice_get pieces field ≡ Some piece
        → result.now ≡ leads_from (is_near steps.now) piece node }
{
    for step in steps {
        if let Ok(place) = place_of(step.nodes.as_slice(), &node) {
            return list_of(step.all.as_slice(), field, place);
        }
    }
    &[]
}

// The places of the nodes to which the field at a place leads from each node of a set.
fn lists_placed(alloc: Global, set: &Uids, steps: &[Step], field: usize) -> Mem<Vec<List<usize>>>
    ensures { (graph : Items Triple) (vars : Items Known) (pieces : Items PieceOf) (piece : PieceOf) → AreSteps graph vars pieces steps.now → slice_get pieces field ≡ Some piece
        → IfOk result (λ made. AllPlaces set.now (map (leads_from (is_near steps.now) piece) set.now) made.items) }
{
    let mut made = Vec::new(alloc);
    for node in set.as_slice() {
        let places = places_in(alloc, set, list_from(steps, field, *node))?;
        made.push(places)?;
    }
    Ok(made)
}

// The column of the field at a place over all nodes that were found.
fn placed_column<S: Snapshot, L: Ledger>(
    alloc: Global,
    snap: &S,
    found: &Found,
    field: usize,
    fetched: &Fetched,
    vars: &Vars,
    reads: &mut Steps<L>,
) -> Mem<Column>
    ensures { (pieces : Items PieceOf) (piece : PieceOf) → AreSteps (S.graph snap.now) vars.now.variables pieces found.now.steps.items → slice_get pieces field ≡ Some piece → IsFetched (S.graph snap.now) vars.now.variables [] fetched.now piece
        → IfOk result (λ column. IsPlaced (is_near found.now.steps.items) found.now.set column piece) }
{
    match &fetched.lists {
        None => {
            let nodes = found.set.as_slice();
            let texts = own_texts(alloc, snap, fetched, vars, nodes, reads)?;
            Ok(Column::Own(texts))
        }
        Some(lists) => {
            let key = fetched.key.copy(alloc)?;
            let places = lists_placed(alloc, &found.set, found.steps.as_slice(), field)?;
            Ok(Column::Edge {
                key,
                single: lists.single,
                lists: places,
            })
        }
    }
}

// Adds a column.
fn add(columns: &mut Vec<Column>, column: Column) -> Mem<()>
    ensures { OnOk result (columns.new.items ≡ columns.old.items ++ column ∷ []) }
{
    Ok(columns.push(column)?)
}

/// The columns of fields over all nodes that were found, by what the fields are themselves: fetched of no node. The error is want of
/// memory.
pub fn placed_columns<S: Snapshot, L: Ledger>(
    alloc: Global,
    snap: &S,
    found: &Found,
    all: &[Fetched],
    vars: &Vars,
    reads: &mut Steps<L>,
) -> Mem<Vec<Column>>
    ensures { (pieces : Items PieceOf) → AreSteps (S.graph snap.now) vars.now.variables pieces found.now.steps.items → AreFetched (S.graph snap.now) vars.now.variables [] all.now pieces
        → IfOk result (λ columns. ArePlaced (is_near found.now.steps.items) found.now.set columns.items pieces) }
{
    let mut columns = Vec::new(alloc);
    for (field, fetched) in all.iter().enumerate() {
        let column = placed_column(alloc, snap, found, field, fetched, vars, reads)?;
        add(&mut columns, column)?;
    }
    Ok(columns)
}
