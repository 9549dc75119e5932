// Scripts that are made from a seed.
use crate::fields::{Answer, RowFault, shown};
use dg_wire::gen_script;
use std::alloc::Global;

// The most nodes of a script that is shown whole.
const MOST_SHOWN: u32 = 3;

/// `gen | SEED | SIZE`: the script, or its length and a sum of its bytes where it has more than three nodes
pub fn made(alloc: Global, said: &[&str]) -> Answer {
    let [seed, size] = said else {
        return Err(RowFault::Unreadable);
    };
    let seed = seed.parse::<u32>()?;
    let size = size.parse::<u32>()?;
    if seed >= 2_147_483_648 || size == 0 || size > 10_000 {
        return Err(RowFault::Unreadable);
    }
    let script = gen_script(alloc, seed, size)?;
    if size <= MOST_SHOWN {
        return Ok(shown(alloc, &script)?);
    }
    let len = script.len();
    let sum = sum_of(&script);
    Ok(format!(in alloc; "{len} bytes, sum {sum}")?)
}

// A sum in which each byte counts by its place.
fn sum_of(bytes: &[u8]) -> u32 {
    let mut sum = 0u32;
    for byte in bytes {
        sum = sum.wrapping_mul(257).wrapping_add(u32::from(*byte));
    }
    sum
}
