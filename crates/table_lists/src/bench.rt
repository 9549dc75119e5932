// What the storage core costs: a store of keys, a map in pages, a posting list of layers, and a base of nodes.
mod bases;
mod beside;
mod fault;
mod lists;
mod maps;
mod plain;
mod rows;
mod shuffle;
mod stores;

use crate::bench::bases::print_base;
use crate::bench::beside::print_beside;
use crate::bench::lists::{print_list, print_replaced};
use crate::bench::maps::print_map;
use crate::bench::stores::{print_filled, print_store};
use anyhow::Result;
use std::alloc::Global;
use std::time::Clock;

// Prints nanoseconds a call, or else how many of the calls found something.
pub(crate) fn print_costs(rt: &(impl Print + Clock), alloc: Global, timed: bool) -> Result<()> {
    let sizes: &[u64] = if timed {
        &[100, 1_000, 10_000, 100_000]
    } else {
        &[10, 100]
    };
    let more: &[u64] = if timed {
        &[100, 1_000, 10_000, 100_000, 1_000_000]
    } else {
        &[10, 100]
    };
    for size in more {
        print_store(rt, alloc, *size, timed)?;
    }
    for size in more {
        print_filled(rt, alloc, *size, timed)?;
        print_map(rt, alloc, *size, timed)?;
        print_beside(rt, alloc, *size, timed)?;
    }
    for size in sizes {
        print_list(rt, alloc, *size, timed)?;
        print_replaced(rt, alloc, *size, timed)?;
    }
    let sizes: &[u64] = if timed {
        &[1_000, 100_000, 1_000_000]
    } else {
        &[10, 1_000]
    };
    for size in sizes {
        print_base(rt, alloc, *size, timed)?;
    }
    Ok(())
}
