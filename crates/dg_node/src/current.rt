// Groups, and how they are brought up to date with a history.
ghost use Rattle.std.specs.Prelude.{◌≡◌, None, IfOk, OnOk, map};
ghost use Rattle.std.specs.List.{AllByRecursion};
ghost use Rattle.dg_group.specs.Groups.{Group};
ghost use Rattle.dg_group.specs.Stands.{IsInStep};
ghost use Rattle.dg_txn.specs.Laws.{AreCurrent};
ghost use Rattle.dg_zero.specs.Exact.{AreExact};
ghost use Rattle.dg_zero.specs.Legal.{IsLegal};
ghost use Rattle.dg_zero.specs.Places.{groups};
ghost use Rattle.dg_zero.specs.Records.{next_record};
ghost use Rattle.dg_node.specs.Owning.{new_group, IsOwned};

use dg_group::{GroupState, Pinned, records_of_histories};
use dg_values::{Mem, OutOfMemory};
use dg_zero::ZeroState;
use std::alloc::Global;

// So many groups, with the numbers from 1 on, which have applied nothing.
pub(crate) fn new_groups(alloc: Global, count: u32) -> Mem<Vec<GroupState>>
    ensures { IfOk result (λ v. v.items ≡ map new_group (groups count)) }
{
    let mut made = Vec::new(alloc);
    for before in 0..count {
        made.push(GroupState::new(alloc, before + 1)?)?;
    }
    Ok(made)
}

// Applies the records that a group hasn't applied yet. After an error some of them are applied.
fn bring_up(zero: &ZeroState, group: &mut GroupState) -> Mem<()>
    requires legal { IsLegal zero.now.groups zero.now.history }
    requires exact { AreExact zero.now.history }
    requires in_step { IsInStep group.old zero.now.history }
    ensures applied { OnOk result (next_record zero.now.history group.new.last ≡ None) }
    ensures in_step { IsInStep group.new zero.now.history }
    ensures number { group.new.number ≡ group.old.number }
{
    while let Some(rec) = zero.next_record(group.last()) {
        // What comes next can be applied.
        records_of_histories();
        group.apply(rec)?;
    }
    Ok(())
}

// Brings each group up to date. After an error some are further on.
fn bring_all(zero: &ZeroState, groups: &mut Vec<GroupState>) -> Mem<()>
    requires legal { IsLegal zero.now.groups zero.now.history }
    requires exact { AreExact zero.now.history }
    requires in_step { AllByRecursion (λ g. IsInStep g zero.now.history) groups.old.items }
    ensures applied { OnOk result (AllByRecursion (λ (g : Group). next_record zero.now.history g.last ≡ None) groups.new.items) }
    ensures in_step { AllByRecursion (λ g. IsInStep g zero.now.history) groups.new.items }
    ensures numbers { map (λ (g : Group). g.number) groups.new.items ≡ map (λ (g : Group). g.number) groups.old.items }
{
    for group in groups.iter_mut() {
        bring_up(zero, group)?;
    }
    Ok(())
}

// A pin of each group.
fn shared(alloc: Global, groups: &[GroupState]) -> Mem<Vec<Pinned>>
    ensures { IfOk result (λ v. v.items ≡ groups.now) }
{
    let mut pins = Vec::with_capacity(alloc, groups.len())?;
    for group in groups {
        pins.push(group.share()?)?;
    }
    Ok(pins)
}

// Brings each group up to date, and shares it. After an error some are further on.
pub(crate) fn pinned(
    alloc: Global,
    zero: &ZeroState,
    groups: &mut Vec<GroupState>,
) -> Mem<Vec<Pinned>>
    requires { IsOwned zero.now groups.old.items }
    ensures owned { IsOwned zero.now groups.new.items }
    ensures pins { IfOk result (λ v. AreCurrent zero.now.groups zero.now.history v.items) }
{
    bring_all(zero, groups)?;
    shared(alloc, groups.as_slice())
}
