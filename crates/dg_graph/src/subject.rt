// The objects of a subject, and what a change makes of them.
ghost use Rattle.std.specs.Prelude.{◌≡◌, ◌∷◌, [], if◌then◌else◌, IfOk, OnOk, OnErr, map};
ghost use Rattle.dg_values.specs.Ascending.{Ascends, without_one, with_one};
ghost use Rattle.dg_values.specs.Order.{posting_cmp};
ghost use Rattle.dg_schema.specs.Definitions.{is_single};
ghost use Rattle.dg_graph.specs.Graphs.{is_of_subject};
ghost use Rattle.dg_graph.specs.Changes.{own_objects_after, objects_after};

use crate::{Change, Triple};
use dg_schema::Schema;
use dg_sets::{put, take_out};
use dg_values::{Mem, OutOfMemory, Posting};
use std::alloc::Global;

/// Whether a subject has one object of a predicate at most: it is declared, and as no list. It takes no memory.
pub fn is_single(schema: &Schema, p: &str) -> bool
    ensures { result ≡ is_single schema.now p.now }
{
    match schema.lookup(p) {
        Some(definition) => !definition.list,
        None => false,
    }
}

/// Whether a triple is of this predicate and has this subject. It takes no memory.
pub fn is_of_subject(p: &str, s: u64, triple: &Triple) -> bool
    ensures { result ≡ is_of_subject p.now s triple.now }
{
    triple.s == s && triple.p.as_str().cmp(p).is_eq()
}

// Copies of the objects of triples.
pub(crate) fn copied_objects(alloc: Global, triples: &[Triple]) -> Mem<Vec<Posting>>
    ensures { IfOk result (λ objects. objects.items ≡ map (λ t. t.o) triples.now) }
{
    let mut objects = Vec::with_capacity(alloc, triples.len())?;
    for triple in triples {
        objects.push(triple.o.copy(alloc)?)?;
    }
    Ok(objects)
}

/// Puts an object in the place of all. The error is want of memory, and leaves the objects as they were.
pub fn put_sole(objects: &mut Vec<Posting>, object: Posting) -> Mem<()>
    ensures ok { OnOk result (objects.new.items ≡ object ∷ []) }
    ensures err { OnErr result (objects.new.items ≡ objects.old.items) }
{
    if objects.is_empty() {
        return Ok(objects.push(object)?);
    }
    objects[0] = object;
    objects.truncate(1);
    Ok(())
}

// Puts an object in the place of all, or among them.
fn put_object(objects: &mut Vec<Posting>, single: bool, object: Posting) -> Mem<()>
    requires ascend { Ascends posting_cmp objects.old.items }
    ensures ok { OnOk result (objects.new.items ≡ (if single then object ∷ [] else with_one posting_cmp objects.old.items object)) }
    ensures err { OnErr result (objects.new.items ≡ objects.old.items) }
{
    if single {
        put_sole(objects, object)
    } else {
        put(objects, object)
    }
}

// Changes the objects of the subject of a change.
fn change_own(
    alloc: Global,
    schema: &Schema,
    objects: &mut Vec<Posting>,
    change: &Change,
) -> Mem<()>
    requires ascend { Ascends posting_cmp objects.old.items }
    ensures ok { OnOk result (objects.new.items ≡ own_objects_after schema.now objects.old.items change.now) }
    ensures err { OnErr result (objects.new.items ≡ objects.old.items) }
{
    match change {
        Change::Set(triple) => {
            let object = triple.o.copy(alloc)?;
            put_object(objects, is_single(schema, triple.p.as_str()), object)
        }
        Change::Del(triple) => {
            take_out(objects, &triple.o);
            Ok(())
        }
    }
}

/// Makes a change of the objects of a subject, which ascend before and after, where the change is of that subject's
/// triples; any other change leaves them. After an error they are as before.
pub fn change_objects(
    alloc: Global,
    schema: &Schema,
    p: &str,
    s: u64,
    objects: &mut Vec<Posting>,
    change: &Change,
) -> Mem<()>
    requires ascend { Ascends posting_cmp objects.old.items }
    ensures ok { OnOk result (objects.new.items ≡ objects_after schema.now p.now s objects.old.items change.now) }
    ensures err { OnErr result (objects.new.items ≡ objects.old.items) }
    ensures ascends { Ascends posting_cmp objects.new.items }
{
    if is_of_subject(p, s, change.triple()) {
        change_own(alloc, schema, objects, change)
    } else {
        Ok(())
    }
}
