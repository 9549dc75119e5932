// Transactions of Zero, and beside each one of the oracle alone.
ghost use Rattle.std.specs.Prelude.{◌≡◌, ◌≢◌, [], IfOk, OnOk, IsTrue};
ghost use Rattle.dg_oracle.specs.Commits.{is_active};
ghost use Rattle.dg_graph.specs.Graphs.{after_changes};
ghost use Rattle.dg_zero.specs.Offers.{IsSound, IsMadeOf};
ghost use Rattle.table_zero.specs.Mirrors.{IsMirror, IsOpen};

use crate::bench::fault::Fault;
use crate::bench::mirror::Mirror;
use crate::bench::rows::{Beside, Plan};
use anyhow::Result;
use dg_graph::Change;
use dg_keys::{ConflictKey, copy_keys};
use dg_oracle::{Oracle, Verdict};
use dg_zero::{Begun, Offer};
use std::alloc::Global;
use std::time::{Clock, Instant};

// A transaction in each.
#[derive(Drop)]
pub(crate) struct Both {
    begun: Begun,
    alone: u64,
}

// The watches of begins, commits and ends.
#[derive(Clone, Copy)]
pub(crate) struct Watches {
    pub(crate) begins: Beside,
    pub(crate) commits: Beside,
    pub(crate) ends: Beside,
}

impl Watches {
    pub(crate) fn new(plan: Plan) -> Watches {
        Watches {
            begins: Beside::new(plan),
            commits: Beside::new(plan),
            ends: Beside::new(plan),
        }
    }
}

// An oracle at whose start nothing was drawn.
pub(crate) fn oracle(alloc: Global) -> Result<Oracle<ConflictKey>>
    ensures { IfOk result (λ oracle. oracle.line ≡ 0) }
{
    Ok(Oracle::starting_at(alloc, 1)?)
}

// Begins one in each.
fn begin(
    rt: &impl Clock,
    alloc: Global,
    mirror: &mut Mirror,
    oracle: &mut Oracle<ConflictKey>,
    watches: &mut Watches,
) -> Result<Both>
    requires { IsMirror mirror.old.zero mirror.old.at }
    ensures mirror { OnOk result (IsMirror mirror.new.zero mirror.new.at) }
    ensures opened { IfOk result (λ both. IsOpen mirror.new.zero both.begun.start mirror.new.at) }
    ensures active { IfOk result (λ both. IsTrue (is_active oracle.new.active both.alone)) }
    ensures line { oracle.new.line ≡ oracle.old.line }
{
    let since = Instant::now(rt)?;
    let begun = mirror.begin(alloc)?;
    watches.begins.zero.stop(rt, since)?;
    let since = Instant::now(rt)?;
    let alone = oracle.begin()?;
    watches.begins.alone.stop(rt, since)?;
    Ok(Both { begun, alone })
}

// Begins and ends one in each.
pub(crate) fn end_one(
    rt: &impl Clock,
    alloc: Global,
    mirror: &mut Mirror,
    oracle: &mut Oracle<ConflictKey>,
    watches: &mut Watches,
) -> Result<()>
    requires { IsMirror mirror.old.zero mirror.old.at }
    ensures { OnOk result (IsMirror mirror.new.zero mirror.new.at) }
{
    let both = begin(rt, alloc, mirror, oracle, watches)?;
    let since = Instant::now(rt)?;
    let _ = mirror.end(alloc, both.begun.start)?;
    watches.ends.zero.stop(rt, since)?;
    let since = Instant::now(rt)?;
    let _ = oracle.end(both.alone);
    watches.ends.alone.stop(rt, since)
}

// Begins and commits one in each, of this change and of its keys.
pub(crate) fn commit_one(
    rt: &impl Clock,
    alloc: Global,
    mirror: &mut Mirror,
    oracle: &mut Oracle<ConflictKey>,
    watches: &mut Watches,
    change: Change,
) -> Result<()>
    requires mirror { IsMirror mirror.old.zero mirror.old.at }
    requires line { oracle.old.line ≡ 0 }
    ensures mirror { OnOk result (IsMirror mirror.new.zero mirror.new.at) }
    ensures line { oracle.new.line ≡ 0 }
{
    let both = begin(rt, alloc, mirror, oracle, watches)?;
    let changes = [change];
    let offer = mirror.offer(alloc, both.begun.start, &changes)?;
    commit(rt, alloc, mirror, oracle, watches, both.alone, offer)?;
    mirror.follow(&changes[0])?;
    Ok(())
}

// Commits an offer, and its keys in the oracle alone.
fn commit(
    rt: &impl Clock,
    alloc: Global,
    mirror: &mut Mirror,
    oracle: &mut Oracle<ConflictKey>,
    watches: &mut Watches,
    alone: u64,
    offer: Offer,
) -> Result<()>
    requires mirror { IsMirror mirror.old.zero mirror.old.at }
    requires opened { IsOpen mirror.old.zero offer.start mirror.old.at }
    requires sound { IsSound mirror.old.at.schema mirror.old.at.graph offer.preds offer.keys offer.parts }
    requires made_of { IsMadeOf mirror.old.at.schema mirror.old.at.graph offer.changes offer.keys offer.parts }
    requires active { IsTrue (is_active oracle.old.active alone) }
    requires line { oracle.old.line ≡ 0 }
    ensures at { mirror.new.at ≡ mirror.old.at }
    ensures led { OnOk result (IsMirror mirror.new.zero (record { schema = mirror.old.at.schema; graph = after_changes mirror.old.at.schema mirror.old.at.graph offer.changes })) }
    ensures line { oracle.new.line ≡ 0 }
{
    let keys = keys_of(alloc, &offer)?;
    let since = Instant::now(rt)?;
    mirror.commit(alloc, offer)?;
    watches.commits.zero.stop(rt, since)?;
    let since = Instant::now(rt)?;
    commit_alone(oracle, alone, keys)?;
    watches.commits.alone.stop(rt, since)
}

// Copies of an offer's keys.
fn keys_of(alloc: Global, offer: &Offer) -> Result<Vec<ConflictKey>, Fault> {
    Ok(copy_keys(alloc, offer.keys.as_slice())?)
}

// Puts keys in order, judges and commits them.
pub(crate) fn commit_alone(
    oracle: &mut Oracle<ConflictKey>,
    start: u64,
    mut keys: Vec<ConflictKey>,
) -> Result<u64, Fault>
    requires active { IsTrue (is_active oracle.old.active start) }
    requires line { oracle.old.line ≡ 0 }
    ensures { oracle.new.line ≡ 0 }
{
    keys.sort_unstable();
    match oracle.judge(start, keys.as_slice()) {
        Verdict::Conflict { .. } => Err(Fault::Refused),
        Verdict::Clear => Ok(oracle.commit(start, keys).map_err(|refused| refused.0)?),
    }
}
