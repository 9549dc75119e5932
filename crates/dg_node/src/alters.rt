// What `alter` does.
ghost use Rattle.std.specs.Prelude.{◌≡◌, ◌≤◌, true, IfOk, OnErr, length};
ghost use Rattle.dg_schema.specs.Whole as language;
ghost use Rattle.dg_zero.specs.Legal.{IsLegal};
ghost use Rattle.dg_node.specs.Alters.{alters, altered, altered_by};
ghost use Rattle.dg_node.specs.Clusters.{Meets};
ghost use Rattle.dg_node.specs.Sessions.{Alters};

use crate::cluster::{Cluster, ClusterFault};
use dg_schema::{Schema, SchemaFault, read_schema};
use dg_values::{Mem, OutOfMemory};
use dg_wire::{Refusal, Reply};
use dg_zero::Slip;
use std::alloc::Global;
use std::str;

/// Adds or replaces the definitions of a text. The author is 0.
///
/// `BadToken` and `SchemaSyntax` come at a fault of the text; then `Pending`, `Moving`, `HasData` and `TimestampsSpent` as the
/// cluster says. After an error nothing has changed.
pub fn alter<C: Cluster>(alloc: Global, cluster: &mut C, author: u32, body: &[u8]) -> Mem<Reply>
    requires size { length body.now ≤ 1048576 }
    requires own { C.takes cluster.old author ≡ true }
    requires author { author ≡ 0 }
    ensures same { C.takes cluster.new ≡ C.takes cluster.old }
    ensures ok { IfOk result (λ reply. Meets (C.takes cluster.old) (C.zero cluster.old) (C.zero cluster.new) (Alters author (λ m n. alters m body.now ≡ (reply, n)))) }
    ensures err { OnErr result (Meets (C.takes cluster.old) (C.zero cluster.old) (C.zero cluster.new) (Alters author (λ m n. n ≡ m))) }
    ensures legal { IsLegal (C.zero cluster.new).groups (C.zero cluster.new).history }
{
    cluster.history_is_legal();
    match str::from_utf8(body) {
        Ok(text) => alter_by(alloc, cluster, author, text),
        Err(fault) => Ok(Reply::Refused(Refusal::BadToken {
            offset: fault.valid_up_to() as u64,
        })),
    }
}

// Adds or replaces the definitions of a text.
fn alter_by<C: Cluster>(alloc: Global, cluster: &mut C, author: u32, text: &str) -> Mem<Reply>
    requires size { length text.now ≤ 1048576 }
    requires own { C.takes cluster.old author ≡ true }
    requires author { author ≡ 0 }
    requires legal { IsLegal (C.zero cluster.old).groups (C.zero cluster.old).history }
    ensures same { C.takes cluster.new ≡ C.takes cluster.old }
    ensures ok { IfOk result (λ reply. Meets (C.takes cluster.old) (C.zero cluster.old) (C.zero cluster.new) (Alters author (λ m n. altered_by m (language.schema text.now) ≡ (reply, n)))) }
    ensures err { OnErr result (Meets (C.takes cluster.old) (C.zero cluster.old) (C.zero cluster.new) (Alters author (λ m n. n ≡ m))) }
    ensures legal { IsLegal (C.zero cluster.new).groups (C.zero cluster.new).history }
{
    match read_schema(alloc, text) {
        Ok(newer) => alter_with(alloc, cluster, author, &newer),
        Err(SchemaFault::SchemaSyntax { line }) => Ok(Reply::Refused(Refusal::SchemaSyntax {
            line: u64::from(line),
        })),
        Err(SchemaFault::OutOfMemory) => Err(OutOfMemory),
    }
}

// Adds or replaces definitions, unless a transaction is open, a tablet is held, or data stands in the way.
fn alter_with<C: Cluster>(alloc: Global, cluster: &mut C, author: u32, newer: &Schema) -> Mem<Reply>
    requires own { C.takes cluster.old author ≡ true }
    requires author { author ≡ 0 }
    requires legal { IsLegal (C.zero cluster.old).groups (C.zero cluster.old).history }
    ensures same { C.takes cluster.new ≡ C.takes cluster.old }
    ensures ok { IfOk result (λ reply. Meets (C.takes cluster.old) (C.zero cluster.old) (C.zero cluster.new) (Alters author (λ m n. altered m newer.now ≡ (reply, n)))) }
    ensures err { OnErr result (Meets (C.takes cluster.old) (C.zero cluster.old) (C.zero cluster.new) (Alters author (λ m n. n ≡ m))) }
    ensures legal { IsLegal (C.zero cluster.new).groups (C.zero cluster.new).history }
{
    let slip = Slip::new(alloc, author)?;
    match cluster.alter(alloc, slip, newer) {
        Ok((start, commit)) => Ok(Reply::Alter { start, commit }),
        Err(ClusterFault::Pending { start }) => Ok(Reply::Refused(Refusal::Pending { start })),
        Err(ClusterFault::Moving { pred }) => Ok(Reply::Refused(Refusal::Moving { pred })),
        Err(ClusterFault::HasData { pred }) => Ok(Reply::Refused(Refusal::HasData { pred })),
        Err(ClusterFault::TimestampsSpent { next }) => {
            Ok(Reply::Refused(Refusal::TimestampsSpent { next }))
        }
        Err(ClusterFault::OutOfMemory) => Err(OutOfMemory),
        Err(
            ClusterFault::NoPredicate { .. }
            | ClusterFault::UidsSpent { .. }
            | ClusterFault::NoGroup { .. }
            | ClusterFault::SameGroup { .. }
            | ClusterFault::AlreadyMoving { .. }
            | ClusterFault::NotMoving { .. }
            | ClusterFault::OldCopy { .. },
        ) => unreachable!(),
    }
}
