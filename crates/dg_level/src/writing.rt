// The rows of a level, written node by node.
ghost use Rattle.std.specs.Prelude.{◌≡◌, ℕ, pos, ◌+◌, ◌<◌, ◌++◌, ◌∷◌, [], List, Some, length, map, codes, slice_get, option_copied, option_to_list, IfOk, OnOk, IsErrOf};
ghost use Rattle.dg_text.specs.Spelling.{uid_text};
ghost use Rattle.dg_tree.specs.Texts.{key_text, field_text};
ghost use Rattle.dg_level.specs.Answers.{value_tree};
ghost use Rattle.dg_level.specs.Rows.{total, with_fields, row_text};
ghost use Rattle.dg_level.specs.Shown.{under};
ghost use Rattle.dg_level.specs.Columns.{FieldsOf, TreesOf, number_object, is_alone, IsBelow, ShowsBy, Shows, AreShown, shown_by};

use crate::Rows;
use crate::answers::value_tree;
use crate::column::{Below, Column, Content};
use crate::known::tree_under;
use crate::lists::list_at;
use dg_check::Vars;
use dg_funcs::{count_along, value_at};
use dg_graph::Snapshot;
use dg_tree::{Tree, TreeFault};
use dg_values::{Mem, OutOfMemory, Steps, Str, Value};
use std::alloc::Global;
use std::sync::ledger::Ledger;

/// A node's number as it is written. The error is want of memory.
pub fn uid_text(alloc: Global, node: u64) -> Mem<Str>
    ensures { IfOk result (λ text. text ≡ uid_text node) }
{
    Ok(Str::from_string(format!(in alloc; "0x{node:x}")?))
}

// Adds what there is, a tree or none, behind the text of a key.
fn push_tree(rows: &mut Rows, key: &str, tree: Option<Tree>) -> Result<(), TreeFault>
    ensures ok { (name : List ℕ) → key.now ≡ key_text name → OnOk result (rows.new.begun ≡ with_fields rows.old.begun (map field_text (map (under name) (option_to_list tree)))) }
    ensures rows { rows.new.rows ≡ rows.old.rows }
    ensures limit { rows.new.limit ≡ rows.old.limit }
    ensures too_large { (name : List ℕ) → key.now ≡ key_text name
        → IsErrOf result TreeFault.TooLarge → rows.old.limit < total rows.old.rows + length (with_fields rows.old.begun (map field_text (map (under name) (option_to_list tree)))) }
{
    match tree {
        None => Ok(()),
        Some(tree) => rows.tree_field(key, &tree),
    }
}

/// The tree of a value, where there is one. The error is want of memory.
pub fn tree_of(alloc: Global, value: Option<&Value>) -> Mem<Option<Tree>>
    ensures { IfOk result (λ tree. option_to_list tree ≡ map value_tree (option_to_list (option_copied value.entry))) }
{
    match value {
        None => Ok(None),
        Some(value) => Ok(Some(value_tree(alloc, value.copy(alloc)?)?)),
    }
}

// The object of a number behind the text of a key.
fn number_object(alloc: Global, number: usize, key: &str) -> Mem<Str>
    ensures { IfOk result (λ text. text ≡ number_object number key.now) }
{
    Ok(Str::from_string(format!(in alloc; "{{{key}{number}}}")?))
}

/// The objects of a number, one behind the text of each key. The error is want of memory.
pub fn number_objects(alloc: Global, number: usize, keys: &[Str]) -> Mem<Vec<Str>>
    ensures { IfOk result (λ texts. texts.items ≡ map (number_object number) keys.now) }
{
    let mut texts = Vec::new(alloc);
    for key in keys {
        texts.push(number_object(alloc, number, key.as_str())?)?;
    }
    Ok(texts)
}

// Whether a node is shown by itself: a single edge leads to it, and no number is asked for.
fn is_alone(single: bool, counts: &[Str]) -> bool
    ensures { result ≡ is_alone single counts.now }
{
    match counts {
        [] => single,
        _ => false,
    }
}

// Adds the nodes of the list of a node, behind the text of a key.
fn push_nodes(
    alloc: Global,
    rows: &mut Rows,
    key: &str,
    below: &Below,
    place: usize,
) -> Result<(), TreeFault>
    ensures ok { (name : List ℕ) (nodes : List ℕ) (shown : TreesOf) (node : ℕ) → key.now ≡ key_text name → IsBelow nodes below.now shown → slice_get nodes place ≡ Some node
        → OnOk result (rows.new.begun ≡ with_fields rows.old.begun (map field_text (map (under name) (shown node)))) }
    ensures rows { rows.new.rows ≡ rows.old.rows }
    ensures limit { rows.new.limit ≡ rows.old.limit }
    ensures too_large { (name : List ℕ) (nodes : List ℕ) (shown : TreesOf) (node : ℕ) → key.now ≡ key_text name → IsBelow nodes below.now shown → slice_get nodes place ≡ Some node
        → IsErrOf result TreeFault.TooLarge → rows.old.limit < total rows.old.rows + length (with_fields rows.old.begun (map field_text (map (under name) (shown node)))) }
{
    let list = list_at(below.lists.as_slice(), place);
    if is_alone(below.single, below.counts.as_slice()) {
        return rows.object_field(key, list, &below.level, &below.rows);
    }
    let front = number_objects(alloc, list.len(), below.counts.as_slice())?;
    rows.array_field(key, front.as_slice(), list, &below.level, &below.rows)
}

/// Adds what a column shows at a node, which stands at this place of the level.
pub fn push_column<S: Snapshot, L: Ledger>(
    alloc: Global,
    snap: &S,
    rows: &mut Rows,
    key: &str,
    content: &Content,
    vars: &Vars,
    place: usize,
    node: u64,
    reads: &mut Steps<L>,
) -> Result<(), TreeFault>
    ensures ok { (name : List ℕ) (nodes : List ℕ) (shown : TreesOf) → key.now ≡ key_text name → ShowsBy (S.graph snap.now) vars.now.variables nodes content.now shown → slice_get nodes place ≡ Some node
        → OnOk result (rows.new.begun ≡ with_fields rows.old.begun (map field_text (map (under name) (shown node)))) }
    ensures rows { rows.new.rows ≡ rows.old.rows }
    ensures limit { rows.new.limit ≡ rows.old.limit }
    ensures too_large { (name : List ℕ) (nodes : List ℕ) (shown : TreesOf) → key.now ≡ key_text name → ShowsBy (S.graph snap.now) vars.now.variables nodes content.now shown → slice_get nodes place ≡ Some node
        → IsErrOf result TreeFault.TooLarge → rows.old.limit < total rows.old.rows + length (with_fields rows.old.begun (map field_text (map (under name) (shown node)))) }
{
    match content {
        Content::Nothing => Ok(()),
        Content::Uid => {
            let text = uid_text(alloc, node)?;
            push_tree(rows, key, Some(Tree::Text(text)))
        }
        Content::Count(edge) => {
            let number = count_along(alloc, snap, edge, node, reads)?;
            push_tree(rows, key, Some(Tree::Int(number)))
        }
        Content::Value(at) => {
            let tree = tree_of(alloc, value_at(vars, *at, node))?;
            push_tree(rows, key, tree)
        }
        Content::Values { pred, list, known } => {
            let tree = tree_under(alloc, snap, pred.as_str(), *list, node, known, reads)?;
            push_tree(rows, key, tree)
        }
        Content::Nodes(below) => push_nodes(alloc, rows, key, below, place),
    }
}

// Adds what columns show at a node, as a row.
fn push_row<S: Snapshot, L: Ledger>(
    alloc: Global,
    snap: &S,
    rows: &mut Rows,
    columns: &[Column],
    vars: &Vars,
    place: usize,
    node: u64,
    reads: &mut Steps<L>,
) -> Result<(), TreeFault>
    requires { rows.old.begun ≡ [] }
    ensures ok { (nodes : List ℕ) (all : List FieldsOf) → AreShown (S.graph snap.now) vars.now.variables nodes columns.now all → slice_get nodes place ≡ Some node
        → OnOk result (rows.new.rows ≡ rows.old.rows ++ row_text (shown_by all node) ∷ []) }
    ensures begun { OnOk result (rows.new.begun ≡ []) }
    ensures limit { rows.new.limit ≡ rows.old.limit }
    ensures too_large { (nodes : List ℕ) (all : List FieldsOf) → AreShown (S.graph snap.now) vars.now.variables nodes columns.now all → slice_get nodes place ≡ Some node
        → IsErrOf result TreeFault.TooLarge → rows.old.limit < total (rows.old.rows ++ row_text (shown_by all node) ∷ []) }
{
    for column in columns {
        let key = column.key.as_str();
        push_column(
            alloc,
            snap,
            rows,
            key,
            &column.content,
            vars,
            place,
            node,
            reads,
        )?;
    }
    Ok(rows.close()?)
}

/// The rows of nodes by columns. Each own value is looked up then and there.
///
/// # Errors
///
/// `TooLarge` only where all rows together have more bytes than the limit, and else `OutOfMemory` for want of memory.
pub fn written<S: Snapshot, L: Ledger>(
    alloc: Global,
    snap: &S,
    limit: usize,
    columns: &[Column],
    vars: &Vars,
    nodes: &[u64],
    reads: &mut Steps<L>,
) -> Result<Rows, TreeFault>
    ensures rows { (all : List FieldsOf) → AreShown (S.graph snap.now) vars.now.variables nodes.now columns.now all → IfOk result (λ rows. rows.rows ≡ map (λ n. row_text (shown_by all n)) nodes.now) }
    ensures limit { IfOk result (λ rows. rows.limit ≡ limit) }
    ensures begun { IfOk result (λ rows. rows.begun ≡ []) }
    ensures too_large { (all : List FieldsOf) → AreShown (S.graph snap.now) vars.now.variables nodes.now columns.now all → IsErrOf result TreeFault.TooLarge → limit < total (map (λ n. row_text (shown_by all n)) nodes.now) }
{
    let mut rows = Rows::with_room(alloc, limit)?;
    for (place, node) in nodes.iter().enumerate() {
        push_row(alloc, snap, &mut rows, columns, vars, place, *node, reads)?;
    }
    Ok(rows)
}
