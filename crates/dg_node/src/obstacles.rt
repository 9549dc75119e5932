// What stands in the way of new definitions: data of another kind.
ghost use Rattle.std.specs.Prelude.{◌≡◌, ◌==◌, ◌<◌, not, IfOk};
ghost use Rattle.dg_zero.specs.Legal.{kind_rank};
ghost use Rattle.dg_node.specs.Alters.{is_other_kind, has_data, first_with_data};

use dg_graph::Snapshot;
use dg_schema::PredDef;
use dg_txn::Present;
use dg_values::{Kind, Mem, OutOfMemory, Steps, Str};
use std::alloc::Global;
use std::marker::Brand;
use std::sync::ledger::{Blank, Ledger};

// Whether two kinds are two.
fn are_other(a: Kind, b: Kind) -> bool
    ensures { result ≡ not (kind_rank a == kind_rank b) }
{
    a as u8 != b as u8
}

// Whether a definition has another kind than an older one, or is a list where that is none, or none where that is one.
fn is_other_kind(definition: &PredDef, older: &PredDef) -> bool
    ensures { result ≡ is_other_kind definition.now older.now }
{
    are_other(definition.kind, older.kind) || definition.list != older.list
}

// Whether the predicate has a triple, and would change its kind, or whether it is a list.
fn has_data<L: Ledger>(
    alloc: Global,
    present: &Present,
    definition: &PredDef,
    reads: &mut Steps<L>,
) -> Mem<bool>
    ensures { IfOk result (λ has. has ≡ has_data present.now.schema present.now.graph definition.now) }
{
    let name = definition.name.as_str();
    match present.schema().lookup(name) {
        Some(older) if is_other_kind(definition, older) => present.has_triple(alloc, name, reads),
        _ => Ok(false),
    }
}

/// The first predicate, in the order of the definitions, that has a triple and would change its kind, or whether it is a list.
/// The error is want of memory.
pub fn first_with_data(
    alloc: Global,
    present: &Present,
    definitions: &[PredDef],
) -> Mem<Option<Str>>
    ensures { IfOk result (λ found. found ≡ first_with_data present.now.schema present.now.graph definitions.now) }
{
    first_in::<Brand>(alloc, present, definitions, Blank::new(1))
}

// The same, on a ledger of its own for the lists that are read.
fn first_in<L: Ledger>(
    alloc: Global,
    present: &Present,
    definitions: &[PredDef],
    blank: Blank,
) -> Mem<Option<Str>>
    requires name { blank.name ≡ L.name }
    requires parts { blank.parts ≡ L.parts }
    requires some { 0 < blank.parts }
    ensures { IfOk result (λ found. found ≡ first_with_data present.now.schema present.now.graph definitions.now) }
{
    let mut reads = Steps::<L>::new(blank);
    for definition in definitions {
        if has_data(alloc, present, definition, &mut reads)? {
            return Ok(Some(definition.name.copy(alloc)?));
        }
    }
    Ok(None)
}
