// Ascending numbers written as packed bytes.
ghost use Rattle.std.specs.Prelude.{◌≡◌, ℕ, List, [], ◌∷◌, ◌++◌, ◌+◌, ◌^◌, ◌<◌, OnOk, length, min};
ghost use Rattle.std.specs.Int.{w64, to_be_bytes};
ghost use Rattle.dg_base.specs.Packed.{groups};

use dg_values::{Mem, OutOfMemory};
use std::alloc::Global;

// How many numbers a block has behind its first one, but for the last block.
pub(crate) const ROOM: usize = 127;

// Where a block begins.
#[derive(Clone, Copy, Debug)]
pub(crate) struct Start {
    // Its first number.
    pub(crate) first: u64,
    // Its place among the bytes.
    pub(crate) at: usize,
}

// Numbers that are being packed.
#[derive(Drop)]
pub(crate) struct Packing {
    pub(crate) bytes: Vec<u8>,
    pub(crate) starts: Vec<Start>,
    // The number that was packed last.
    pub(crate) last: u64,
    // How many more its block takes.
    pub(crate) room: usize,
}

impl Packing {
    ghost use Rattle.dg_base.specs.Cursors.{IsPackedBut};

    // Nothing is packed yet.
    pub(crate) fn new(alloc: Global) -> Packing
        ensures bytes { result.bytes.items ≡ [] }
        ensures starts { result.starts.items ≡ [] }
        ensures last { result.last ≡ 0 }
        ensures room { result.room ≡ 0 }
    {
        Packing {
            bytes: Vec::new(alloc),
            starts: Vec::new(alloc),
            last: 0,
            room: 0,
        }
    }

    // Packs a number, which so many more follow.
    pub(crate) fn add(&mut self, number: u64, left: usize) -> Mem<()>
        requires { (whole : List ℕ) × (later : List ℕ) × IsPackedBut self.old whole (number ∷ later) }
        ensures fits { number < 2 ^ 64 }
        ensures written { OnOk result ((whole later : List ℕ) → IsPackedBut self.old whole (number ∷ later) → left ≡ length later → IsPackedBut self.new whole later) }
    {
        if self.room == 0 {
            self.begin(number, left)
        } else {
            self.go_on(number)
        }
    }

    // Begins a block with a number, which so many more follow.
    fn begin(&mut self, first: u64, left: usize) -> Mem<()>
        requires { self.old.room ≡ 0 }
        ensures { OnOk result ((whole later : List ℕ) → IsPackedBut self.old whole (first ∷ later) → left ≡ length later → IsPackedBut self.new whole later) }
    {
        self.starts.push(Start {
            first,
            at: self.bytes.len(),
        })?;
        push_head(&mut self.bytes, left, first)?;
        self.last = first;
        self.room = ROOM;
        Ok(())
    }

    // Goes on in a block with a number.
    fn go_on(&mut self, number: u64) -> Mem<()>
        requires room { 0 < self.old.room }
        requires rises { self.old.last < number }
        ensures { OnOk result ((whole later : List ℕ) → IsPackedBut self.old whole (number ∷ later) → IsPackedBut self.new whole later) }
    {
        push_groups(&mut self.bytes, 9, number - self.last)?;
        self.last = number;
        self.room -= 1;
        Ok(())
    }
}

// Adds the head of a block: how many numbers follow the first one, and that one.
fn push_head(bytes: &mut Vec<u8>, left: usize, first: u64) -> Mem<()>
    ensures { OnOk result (bytes.new.items ≡ bytes.old.items ++ min 127 left ∷ to_be_bytes w64 first) }
{
    bytes.push(left.min(ROOM) as u8)?;
    Ok(bytes.extend_from_slice(&first.to_be_bytes())?)
}

// Adds a number in groups of 7 bits, the lowest first. At most `more` groups follow the first.
fn push_groups(bytes: &mut Vec<u8>, more: u32, number: u64) -> Mem<()>
    requires { number < 128 ^ (more + 1) }
    ensures { OnOk result (bytes.new.items ≡ bytes.old.items ++ groups more number) }
{
    if more == 0 || number < 128 {
        bytes.push(number as u8)?;
        return Ok(());
    }
    bytes.push(128 + (number % 128) as u8)?;
    push_groups(bytes, more - 1, number / 128)
}
