// The nodes that a function gives at a root.
ghost use Rattle.std.specs.Prelude.{◌≡◌, ◌+◌, ◌++◌, Option, option_to_list, filter_map, IfOk, OnOk, IfSome};
ghost use Rattle.dg_graph.specs.Graphs.{objects, IsLawful};
ghost use Rattle.dg_graph.specs.Lookups.{node_in, pointed_to};
ghost use Rattle.dg_values.specs.declared.kind.Kind.{Kind};
ghost use Rattle.dg_parse.specs.declared.query.CmpOp.TheVariants as ops;
ghost use Rattle.dg_check.specs.declared.parts.Func.TheVariants as funcs;
ghost use Rattle.dg_check.specs.declared.parts.Of.TheVariants as part;
ghost use Rattle.dg_check.specs.Vars.{nodes_of};
ghost use Rattle.dg_funcs.specs.Roots.{nodes_with, nodes_of_part, candidates, root_nodes};
ghost use Rattle.dg_funcs.specs.Reads.{lists_read};

use crate::allterms::root_of_all_terms;
use crate::anyterms::root_of_any_term;
use crate::dates::equal_by_dates;
use crate::equal::equal_by_index;
use crate::equalterms::equal_by_terms;
use crate::held::held;
use crate::indexes::{is_indexed, whole_index};
use crate::named;
use crate::numbers::{has_numbers, pointed_by_numbers, root_between_numbers, root_of_numbers};
use crate::ranges::{root_of_between, root_of_compared};
use dg_check::{Func, Of, Vars};
use dg_graph::Snapshot;
use dg_parse::{CmpOp, QEdge};
use dg_uids::Uids;
use dg_values::{Mem, OutOfMemory, Posting, Steps, Tokenizer, Value};
use std::alloc::Global;
use std::sync::ledger::Ledger;

// Adds the node that an object is.
fn add_node(found: &mut Vec<u64>, object: &Posting) -> Mem<()>
    ensures { OnOk result (found.new.items ≡ found.old.items ++ option_to_list (node_in object.now)) }
{
    match object {
        Posting::Uid(n) => found.push(*n)?,
        Posting::Val(_) => {}
    }
    Ok(())
}

// The nodes among objects.
fn nodes_among(alloc: Global, objects: &[Posting]) -> Mem<Vec<u64>>
    ensures { IfOk result (λ v. v.items ≡ filter_map node_in objects.now) }
{
    let mut found = Vec::new(alloc);
    for object in objects {
        add_node(&mut found, object)?;
    }
    Ok(found)
}

/// The nodes to which a subject points.
pub(crate) fn ends_of<S: Snapshot, L: Ledger>(
    alloc: Global,
    snap: &S,
    p: &str,
    subject: u64,
    reads: &mut Steps<L>,
) -> Mem<Vec<u64>>
    ensures { IfOk result (λ v. v.items ≡ filter_map node_in (objects (S.graph snap.now) p.now subject)) }
{
    let objects = snap.objects(alloc, p, subject, reads)?;
    nodes_among(alloc, objects.as_slice())
}

// The nodes that any subject points to, found by going over all that have an object.
fn pointed_to<S: Snapshot, L: Ledger>(
    alloc: Global,
    snap: &S,
    p: &str,
    reads: &mut Steps<L>,
) -> Mem<Uids>
    ensures { IfOk result (λ uids. uids ≡ pointed_to (S.graph snap.now) p.now) }
{
    let all = snap.holders(alloc, p, reads)?;
    let mut found = Vec::new(alloc);
    for subject in all.as_slice() {
        let ends = ends_of(alloc, snap, p, *subject, reads)?;
        found.extend_from_slice(ends.as_slice())?;
    }
    Ok(Uids::gathered(found))
}

// The nodes that any subject points to. Where there are lists of nodes by their numbers of subjects no list of a node is
// read.
fn nodes_pointed_to<S: Snapshot, L: Ledger>(
    alloc: Global,
    snap: &S,
    p: &str,
    reads: &mut Steps<L>,
) -> Mem<Uids>
    ensures { IfOk result (λ uids. uids ≡ pointed_to (S.graph snap.now) p.now) }
{
    if has_numbers(snap, p, true) {
        pointed_by_numbers(alloc, snap, p, reads)
    } else {
        pointed_to(alloc, snap, p, reads)
    }
}

/// The nodes that have an object by an edge, or to which a subject points.
pub(crate) fn nodes_with<S: Snapshot, L: Ledger>(
    alloc: Global,
    snap: &S,
    edge: &QEdge,
    reads: &mut Steps<L>,
) -> Mem<Uids>
    ensures { IfOk result (λ uids. uids ≡ nodes_with (S.graph snap.now) edge.now) }
{
    if edge.back {
        nodes_pointed_to(alloc, snap, edge.pred.as_str(), reads)
    } else {
        snap.holders(alloc, edge.pred.as_str(), reads)
    }
}

// The nodes of the variable at a place.
fn copy_of(alloc: Global, vars: &Vars, place: usize) -> Mem<Uids>
    ensures { IfOk result (λ uids. uids ≡ nodes_of vars.now.variables place) }
{
    match vars.variables.as_slice().get(place) {
        Some(v) => v.nodes.copy(alloc),
        None => Ok(Uids::gathered(Vec::new(alloc))),
    }
}

// The nodes of which a comparison is asked.
fn nodes_of_part<S: Snapshot, L: Ledger>(
    alloc: Global,
    snap: &S,
    of: &Of,
    vars: &Vars,
    reads: &mut Steps<L>,
) -> Mem<Uids>
    ensures { IfOk result (λ uids. uids ≡ nodes_of_part (S.graph snap.now) vars.now.variables of.now) }
{
    match of {
        Of::Pred(p) => snap.holders(alloc, p.as_str(), reads),
        Of::Count(edge) => nodes_with(alloc, snap, edge, reads),
        Of::Val(place) => copy_of(alloc, vars, *place),
    }
}

// The nodes of which a function is asked.
fn candidates<S: Snapshot, L: Ledger>(
    alloc: Global,
    snap: &S,
    func: &Func,
    vars: &Vars,
    reads: &mut Steps<L>,
) -> Mem<Uids>
    ensures { IfOk result (λ uids. uids ≡ candidates (S.graph snap.now) vars.now.variables func.now) }
{
    match func {
        Func::Uid(names) => named(alloc, vars, names.as_slice()),
        Func::Cmp { of, .. } => nodes_of_part(alloc, snap, of, vars, reads),
        Func::Between { of, .. } => nodes_of_part(alloc, snap, of, vars, reads),
        Func::Has(edge) => nodes_with(alloc, snap, edge, reads),
        Func::Terms { pred, .. } => snap.holders(alloc, pred.as_str(), reads),
        Func::Regexp { pred, .. } => snap.holders(alloc, pred.as_str(), reads),
        Func::UidIn { edge, .. } => nodes_with(alloc, snap, edge, reads),
    }
}

/// Those of them at which it holds, each asked.
pub(crate) fn root_by_search<S: Snapshot, L: Ledger>(
    alloc: Global,
    snap: &S,
    func: &Func,
    vars: &Vars,
    reads: &mut Steps<L>,
) -> Mem<Uids>
    ensures { IfOk result (λ uids. uids ≡ root_nodes (S.graph snap.now) vars.now.variables func.now) }
{
    let nodes = candidates(alloc, snap, func, vars, reads)?;
    held(alloc, snap, func, &nodes, vars, reads)
}

// The nodes that have a value equal to one of these: by an index of terms or of dates, where there is one.
fn root_of_similar<S: Snapshot, L: Ledger>(
    alloc: Global,
    snap: &S,
    func: &Func,
    p: &str,
    values: &[Value],
    vars: &Vars,
    reads: &mut Steps<L>,
) -> Mem<Uids>
    requires equal { (kind : Option Kind) × (func.now ≡ funcs.Cmp ops.Eq (part.Pred p.now) kind values.now) }
    ensures { IfOk result (λ uids. uids ≡ root_nodes (S.graph snap.now) vars.now.variables func.now) }
{
    if is_indexed(snap, p, Tokenizer::Term) {
        equal_by_terms(alloc, snap, func, p, values, vars, reads)
    } else {
        equal_by_dates(alloc, snap, func, p, values, vars, reads)
    }
}

// The nodes that have a value equal to one of these: by an index under which they are filed, where there is one.
fn root_of_equal<S: Snapshot, L: Ledger>(
    alloc: Global,
    snap: &S,
    func: &Func,
    p: &str,
    values: &[Value],
    vars: &Vars,
    reads: &mut Steps<L>,
) -> Mem<Uids>
    requires equal { (kind : Option Kind) × (func.now ≡ funcs.Cmp ops.Eq (part.Pred p.now) kind values.now) }
    ensures nodes { IfOk result (λ uids. uids ≡ root_nodes (S.graph snap.now) vars.now.variables func.now) }
    ensures reads { IfSome (lists_read (S.declared snap.now) func.now) (λ n. OnOk result (reads.new ≡ reads.old + n)) }
{
    match whole_index(snap, p, values) {
        Some(tokenizer) => equal_by_index(alloc, snap, p, tokenizer, values, reads),
        None => root_of_similar(alloc, snap, func, p, values, vars, reads),
    }
}

// The nodes of which what is compared stands so to one of these values.
fn root_of_comparison<S: Snapshot, L: Ledger>(
    alloc: Global,
    snap: &S,
    func: &Func,
    op: CmpOp,
    of: &Of,
    values: &[Value],
    vars: &Vars,
    reads: &mut Steps<L>,
) -> Mem<Uids>
    requires given { (kind : Option Kind) × (func.now ≡ funcs.Cmp op of.now kind values.now) }
    ensures nodes { IsLawful (S.declared snap.now) (S.graph snap.now) → IfOk result (λ uids. uids ≡ root_nodes (S.graph snap.now) vars.now.variables func.now) }
    ensures reads { IfSome (lists_read (S.declared snap.now) func.now) (λ n. OnOk result (reads.new ≡ reads.old + n)) }
{
    match of {
        Of::Pred(p) => root_of_values(alloc, snap, func, op, p.as_str(), values, vars, reads),
        Of::Count(edge) => root_of_numbers(alloc, snap, func, op, edge, values, vars, reads),
        Of::Val(_) => root_by_search(alloc, snap, func, vars, reads),
    }
}

// The same of a predicate's values.
fn root_of_values<S: Snapshot, L: Ledger>(
    alloc: Global,
    snap: &S,
    func: &Func,
    op: CmpOp,
    p: &str,
    values: &[Value],
    vars: &Vars,
    reads: &mut Steps<L>,
) -> Mem<Uids>
    requires given { (kind : Option Kind) × (func.now ≡ funcs.Cmp op (part.Pred p.now) kind values.now) }
    ensures nodes { IsLawful (S.declared snap.now) (S.graph snap.now) → IfOk result (λ uids. uids ≡ root_nodes (S.graph snap.now) vars.now.variables func.now) }
    ensures reads { IfSome (lists_read (S.declared snap.now) func.now) (λ n. OnOk result (reads.new ≡ reads.old + n)) }
{
    match op {
        CmpOp::Eq => root_of_equal(alloc, snap, func, p, values, vars, reads),
        CmpOp::Le => root_of_compared(alloc, snap, func, op, p, values, vars, reads),
        CmpOp::Lt => root_of_compared(alloc, snap, func, op, p, values, vars, reads),
        CmpOp::Ge => root_of_compared(alloc, snap, func, op, p, values, vars, reads),
        CmpOp::Gt => root_of_compared(alloc, snap, func, op, p, values, vars, reads),
    }
}

// The nodes of which what is compared lies between two values.
fn root_of_span<S: Snapshot, L: Ledger>(
    alloc: Global,
    snap: &S,
    func: &Func,
    of: &Of,
    values: &[Value],
    vars: &Vars,
    reads: &mut Steps<L>,
) -> Mem<Uids>
    requires given { (kind : Option Kind) × (func.now ≡ funcs.Between of.now kind values.now) }
    ensures { IfOk result (λ uids. uids ≡ root_nodes (S.graph snap.now) vars.now.variables func.now) }
{
    match of {
        Of::Pred(p) => root_of_between(alloc, snap, func, p.as_str(), values, vars, reads),
        Of::Count(edge) => root_between_numbers(alloc, snap, func, edge, values, vars, reads),
        Of::Val(_) => root_by_search(alloc, snap, func, vars, reads),
    }
}

/// The nodes that a function gives at a root, in a graph that is lawful under its schema. The error is want of memory.
///
/// Where the schema keeps lists that serve, they are read, and then the objects of each node that they give, but for those
/// rows that say it is told by the lists alone:
///
/// | Function | Lists that are read |
/// |---|---|
/// | `uid` | none, and no node is asked |
/// | `has(p)` | those by which all nodes with an object are found; they tell alone |
/// | `has(~p)` with `@reverse` and `@count` | one for each number of subjects; they tell alone |
/// | `eq` by exact, hash, int or bool | one for each distinct value; they tell alone |
/// | `eq` by term | one for each distinct term of each value, where each has one |
/// | `eq` by hour, day, month or year | one for each distinct hour, day, month or year of a value |
/// | `between` by exact, int, hour, day, month or year | those of the range between the two, both included |
/// | `le`, `lt` of one value, by exact, int or bool | those of the range up to the value |
/// | `ge`, `gt` of one value, by exact, int or bool | those of the range from the value on |
/// | `le`, `lt` of one moment, by hour, day, month or year | those of the range up to its hour, day, month or year |
/// | `ge`, `gt` of one moment, by hour, day, month or year | those of the range from its hour, day, month or year on |
/// | `anyofterms` by term | one for each distinct term; they tell alone |
/// | `allofterms` by term | one for each distinct term |
/// | `eq` of `count`, with `@count` | one for each distinct number; they tell alone |
/// | `le`, `lt`, `ge`, `gt` of `count` to one value, and `between`, with `@count` | one for each number that stands so; they tell alone |
///
/// For all else each node that can pass is asked: each with an object of the predicate, or with a value of the variable. How many
/// lists are read is promised for `uid`, for `eq` by exact, hash, int or bool, and for `anyofterms` by term.
pub fn root<S: Snapshot, L: Ledger>(
    alloc: Global,
    snap: &S,
    func: &Func,
    vars: &Vars,
    reads: &mut Steps<L>,
) -> Mem<Uids>
    ensures nodes { IsLawful (S.declared snap.now) (S.graph snap.now) → IfOk result (λ uids. uids ≡ root_nodes (S.graph snap.now) vars.now.variables func.now) }
    ensures reads { IfSome (lists_read (S.declared snap.now) func.now) (λ n. OnOk result (reads.new ≡ reads.old + n)) }
{
    match func {
        Func::Uid(names) => named(alloc, vars, names.as_slice()),
        Func::Has(edge) => nodes_with(alloc, snap, edge, reads),
        Func::Cmp { op, of, values, .. } => root_of_comparison(
            alloc,
            snap,
            func,
            *op,
            of,
            values.as_slice(),
            vars,
            reads,
        ),
        Func::Between { of, values, .. } => {
            root_of_span(alloc, snap, func, of, values.as_slice(), vars, reads)
        }
        Func::Terms { all, pred, text } => {
            if *all {
                root_of_all_terms(alloc, snap, func, pred.as_str(), text, vars, reads)
            } else {
                root_of_any_term(alloc, snap, func, pred.as_str(), text, vars, reads)
            }
        }
        Func::Regexp { .. } => root_by_search(alloc, snap, func, vars, reads),
        Func::UidIn { .. } => root_by_search(alloc, snap, func, vars, reads),
    }
}
