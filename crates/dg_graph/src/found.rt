// Nodes found by what they point to and by what points to them: one pass over the triples of a graph.
ghost use Rattle.std.specs.Prelude.{◌≡◌, ◌&&◌, true, IfOk};
ghost use Rattle.std.specs.Ordering.{is_eq};
ghost use Rattle.dg_values.specs.Order.{posting_cmp};
ghost use Rattle.dg_values.specs.declared.value.Posting.TheVariants as postings;
ghost use Rattle.dg_graph.specs.Graphs.{is_of};
ghost use Rattle.dg_graph.specs.Lookups.{subjects_of, holders, pointed_by, pointed_to};

use crate::Triple;
use dg_uids::Uids;
use dg_values::{Mem, OutOfMemory, Posting, cmp_posting};
use std::alloc::Global;

// Whether a triple is of this predicate.
pub(crate) fn is_of(p: &str, triple: &Triple) -> bool
    ensures { result ≡ is_of p.now triple.now }
{
    triple.p.as_str().cmp(p).is_eq()
}

// Whether a triple is of this predicate, whatever its object.
fn is_held(p: &str, triple: &Triple) -> bool
    ensures { result ≡ (is_of p.now triple.now && true) }
{
    if is_of(p, triple) { true } else { false }
}

// The nodes that have an object.
pub(crate) fn holders(alloc: Global, triples: &[Triple], p: &str) -> Mem<Uids>
    ensures { IfOk result (λ uids. uids ≡ holders triples.now p.now) }
{
    let mut found = Vec::new(alloc);
    for triple in triples {
        if is_held(p, triple) {
            found.push(triple.s)?;
        }
    }
    Ok(Uids::gathered(found))
}

// Whether a triple points to a node.
fn points_to(p: &str, o: u64, triple: &Triple) -> bool
    ensures { result ≡ (is_of p.now triple.now && is_eq (posting_cmp triple.now.o (postings.Uid o))) }
{
    if is_of(p, triple) {
        cmp_posting(&triple.o, &Posting::Uid(o)).is_eq()
    } else {
        false
    }
}

// The nodes that point to a node.
pub(crate) fn subjects(alloc: Global, triples: &[Triple], p: &str, o: u64) -> Mem<Uids>
    ensures { IfOk result (λ uids. uids ≡ subjects_of triples.now p.now (postings.Uid o)) }
{
    let mut found = Vec::new(alloc);
    for triple in triples {
        if points_to(p, o, triple) {
            found.push(triple.s)?;
        }
    }
    Ok(Uids::gathered(found))
}

// The node that a triple of this predicate points to.
fn pointed_by(p: &str, triple: &Triple) -> Option<u64>
    ensures { result ≡ pointed_by p.now triple.now }
{
    if !is_of(p, triple) {
        return None;
    }
    match &triple.o {
        Posting::Uid(n) => Some(*n),
        Posting::Val(_) => None,
    }
}

// The nodes that something points to.
pub(crate) fn pointed_to(alloc: Global, triples: &[Triple], p: &str) -> Mem<Uids>
    ensures { IfOk result (λ uids. uids ≡ pointed_to triples.now p.now) }
{
    let mut found = Vec::new(alloc);
    for triple in triples {
        match pointed_by(p, triple) {
            Some(n) => found.push(n)?,
            None => {}
        }
    }
    Ok(Uids::gathered(found))
}
