// The history in memory, and the room for what is added to it.
ghost use Rattle.std.specs.Prelude.{◌≡◌, length, IfOk};
ghost use Rattle.dg_zero.specs.Chains.{recorded};

use crate::chain::Chain;
use dg_keys::Record;
use dg_values::{Mem, OutOfMemory};
use std::alloc::Global;
use std::marker::Model;

// A chain of entries, and the records of its commits and alters, the oldest first.
#[derive(Drop)]
pub struct Past {
    pub chain: Chain,
    pub records: Vec<Record>,
    ghost counted: { recorded chain ≡ length records.items },
}

// The most bytes that the name of a predicate has.
const NAME: usize = 64;

/// Room for one entry of an author, and for the name of one predicate (64 bytes). Contracts see it as the author's number.
#[derive(Debug, Drop)]
pub struct Slip {
    pub(crate) author: u32,
    pub(crate) room: Box<Chain>,
    pub(crate) name: String,
}

impl Model for Slip {
    ghost use Rattle.std.specs.Prelude.{ℕ, ◌≤◌, string_capacity};

    ghost Value = { ℕ };

    ghost view = { λ s. s.author };

    ghost invariant = { λ s. 64 ≤ string_capacity s.name };
}

impl Slip {
    /// Room for one entry of this author, and for one name.
    pub fn new(alloc: Global, author: u32) -> Mem<Slip>
        ensures { IfOk result (λ slip. slip ≡ author) }
    {
        let name = String::with_capacity(alloc, NAME)?;
        let room = Box::new(alloc, Chain::Spent(0))?;
        Ok(Slip { author, room, name })
    }
}
