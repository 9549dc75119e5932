// Nodes that never change, as packed bytes.
ghost use Rattle.std.specs.Prelude.{◌≡◌, ℕ, List, true, false, nat_le, ◌+◌, ◌≤◌, ◌++◌, IfOk, OnOk, length, map, take, drop, count_by};
ghost use Rattle.std.specs.Ordering.{nat_cmp, is_lt};
ghost use Rattle.std.specs.List.Sorted.{IsPartitionPoint, IsPartitionedBy};
ghost use Rattle.dg_values.specs.Ascending.{Ascends, has};
ghost use Rattle.dg_values.specs.Order.{posting_cmp};
ghost use Rattle.dg_values.specs.declared.value.Posting.TheVariants.{Uid};
ghost use Rattle.dg_base.specs.Packed.{packed, is_uid, uids_of};
ghost use Rattle.dg_base.specs.Cursors.{StandsBefore};

use crate::packing::{Packing, Start};
use crate::reading::Cursor;
use dg_values::{Mem, OutOfMemory, Posting};
use std::alloc::Global;
use std::marker::Model;

// How many numbers a block has, but for the last one.
const BLOCK: usize = 128;

// The numbers of nodes, which contracts see as a list that ascends strictly.
#[derive(Debug, Drop)]
pub(crate) struct Nodes {
    bytes: Vec<u8>,
    starts: Vec<Start>,
    count: usize,
}

// Where a node stands, or where it belongs.
#[derive(Clone, Copy, Debug)]
pub(crate) struct Place {
    // How many nodes are below.
    pub(crate) below: usize,
    // Whether the node is there.
    pub(crate) there: bool,
}

impl Model for Nodes {
    ghost use Rattle.std.specs.Prelude.{ℕ, List};
    ghost use Rattle.dg_base.specs.Unpacked.{unpacked};
    ghost use Rattle.dg_base.specs.Starts.{IsHeld};

    ghost Value = { List ℕ };

    ghost view = { λ nodes. unpacked nodes.bytes.items };

    ghost invariant = { λ nodes. IsHeld nodes.bytes.items nodes.starts.items nodes.count };
}

impl Nodes {
    // The nodes of postings.
    pub(crate) fn pack(alloc: Global, items: &[Posting]) -> Mem<Nodes>
        requires { Ascends posting_cmp items.now }
        ensures { IfOk result (λ nodes. nodes ≡ uids_of items.now) }
    {
        let count = count_nodes(items);
        let mut packing = Packing::new(alloc);
        let mut left = count;
        for item in items {
            match item {
                Posting::Uid(number) => {
                    left -= 1;
                    packing.add(*number, left)?;
                }
                Posting::Val(_) => {}
            }
        }
        Ok(Nodes {
            bytes: packing.bytes,
            starts: packing.starts,
            count,
        })
    }

    // How many nodes there are.
    pub(crate) fn len(&self) -> usize
        ensures { result ≡ length self.now }
    {
        self.count
    }

    // The packed bytes.
    pub(crate) fn packed(&self) -> &[u8]
        ensures { result.now ≡ packed self.now }
    {
        self.bytes.as_slice()
    }

    // Where a node stands, or where it belongs.
    pub(crate) fn place(&self, number: u64) -> Place
        ensures below { result.below ≡ count_by (λ other. is_lt (nat_cmp other number)) self.now }
        ensures there { result.there ≡ has nat_cmp self.now number }
    {
        let bytes = self.bytes.as_slice();
        let starts = self.starts.as_slice();
        let after = blocks_up_to(starts, number);
        if after == 0 {
            return Place {
                below: 0,
                there: false,
            };
        }
        let block = after - 1;
        let from = BLOCK * block;
        let end = from + BLOCK.min(self.count - from);
        let mut cursor = Cursor::new(starts[block]);
        for below in from..end {
            cursor = cursor.next(bytes);
            if number <= cursor.last {
                return Place {
                    below,
                    there: cursor.last == number,
                };
            }
        }
        Place {
            below: end,
            there: false,
        }
    }

    // Adds so many nodes from a place on.
    pub(crate) fn push_to(&self, items: &mut Vec<Posting>, from: usize, most: usize) -> Mem<()>
        requires { from + most ≤ length self.now }
        ensures { OnOk result (items.new.items ≡ items.old.items ++ map (λ n. Uid n) (take most (drop from self.now))) }
    {
        if most == 0 {
            return Ok(());
        }
        let bytes = self.bytes.as_slice();
        let starts = self.starts.as_slice();
        let start = Cursor::new(starts[from / BLOCK]);
        push_numbers(items, bytes, start.behind(bytes, from % BLOCK), most)
    }
}

// How many blocks begin at or below a number.
fn blocks_up_to(starts: &[Start], number: u64) -> usize
    requires { IsPartitionedBy (λ start. nat_le start.first number) starts.now }
    ensures within { result ≤ length starts.now }
    ensures point { IsPartitionPoint (λ start. nat_le start.first number ≡ true) (λ start. nat_le start.first number ≡ false) starts.now result }
{
    starts.partition_point(|start| start.first <= number)
}

// Adds so many nodes that stand behind a cursor.
fn push_numbers(items: &mut Vec<Posting>, bytes: &[u8], start: Cursor, most: usize) -> Mem<()>
    requires { (xs : List ℕ) × (most ≤ length xs) × StandsBefore bytes.now start xs }
    ensures { OnOk result ((xs : List ℕ) → most ≤ length xs → StandsBefore bytes.now start xs → items.new.items ≡ items.old.items ++ map (λ n. Uid n) (take most xs)) }
{
    let mut cursor = start;
    for _read in 0..most {
        cursor = cursor.next(bytes);
        items.push(Posting::Uid(cursor.last))?;
    }
    Ok(())
}

// How many nodes postings begin with.
fn count_nodes(items: &[Posting]) -> usize
    requires { Ascends posting_cmp items.now }
    ensures { result ≡ length (uids_of items.now) }
{
    items.partition_point(|item| is_node(item))
}

fn is_node(item: &Posting) -> bool
    ensures { result ≡ is_uid item.now }
{
    matches!(item, Posting::Uid(_))
}
