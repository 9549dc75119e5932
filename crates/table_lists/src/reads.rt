// Posting lists read, each time with a new count of steps.
ghost use Rattle.std.specs.Prelude.{◌≡◌, ◌<◌, ◌≤◌, IfOk};
ghost use Rattle.dg_list.specs.Lists.{reading};

use dg_base::Base;
use dg_list::PList;
use dg_values::{Mem, Posting, Steps};
use std::alloc::Global;
use std::marker::Brand;
use std::sync::ledger::{Blank, Ledger};

pub(crate) fn read(alloc: Global, list: &PList, ts: u64) -> Mem<Vec<Posting>>
    requires { list.now.base_ts ≤ ts }
{
    read_counted::<Brand>(alloc, list, ts, Blank::new(1))
}

fn read_counted<L: Ledger>(alloc: Global, list: &PList, ts: u64, blank: Blank) -> Mem<Vec<Posting>>
    requires name { blank.name ≡ L.name }
    requires parts { blank.parts ≡ L.parts }
    requires some { 0 < blank.parts }
    requires from { list.now.base_ts ≤ ts }
{
    let mut reads: Steps<L> = Steps::new(blank);
    list.read_at(alloc, ts, &mut reads)
}

pub(crate) fn has(list: &PList, ts: u64, item: &Posting) -> bool
    requires { list.now.base_ts ≤ ts }
{
    has_counted::<Brand>(list, ts, item, Blank::new(1))
}

fn has_counted<L: Ledger>(list: &PList, ts: u64, item: &Posting, blank: Blank) -> bool
    requires name { blank.name ≡ L.name }
    requires parts { blank.parts ≡ L.parts }
    requires some { 0 < blank.parts }
    requires from { list.now.base_ts ≤ ts }
{
    let mut reads: Steps<L> = Steps::new(blank);
    list.has_at(ts, item, &mut reads)
}

pub(crate) fn merged(alloc: Global, list: &PList, upto: u64) -> Mem<Base>
    requires { list.now.base_ts ≤ upto }
    ensures { IfOk result (λ base. base ≡ reading list.now upto) }
{
    merged_counted::<Brand>(alloc, list, upto, Blank::new(1))
}

fn merged_counted<L: Ledger>(alloc: Global, list: &PList, upto: u64, blank: Blank) -> Mem<Base>
    requires name { blank.name ≡ L.name }
    requires parts { blank.parts ≡ L.parts }
    requires some { 0 < blank.parts }
    requires from { list.now.base_ts ≤ upto }
    ensures { IfOk result (λ base. base ≡ reading list.now upto) }
{
    let mut reads: Steps<L> = Steps::new(blank);
    list.merged(alloc, upto, &mut reads)
}
