// One entry more.
ghost use Rattle.std.specs.Prelude.{◌≡◌, ◌+◌, ◌<◌, List, get_or, OnOk};
ghost use Rattle.std.specs.Vec.{vec_len, vec_capacity};
ghost use Rattle.dg_keys.specs.declared.record.Record.{Record};
ghost use Rattle.dg_zero.specs.Chains.{no_record, count_of, recorded, event_of, entries_of};
ghost use Rattle.dg_zero.specs.Pasts.{entries};
ghost use Rattle.dg_zero.specs.States.{and_entry};

use crate::Slip;
use crate::chain::{Chain, Kept, What};
use crate::past::Past;
use dg_keys::Record;
use dg_values::{Mem, OutOfMemory};
use std::mem;

// Adds an entry that has no record at the end. It takes no memory.
pub fn append(past: &mut Past, slip: Slip, what: What)
    requires { count_of what ≡ 0 }
    ensures { entries past.new ≡ and_entry (entries past.old) slip (event_of (entries past.old) no_record what) }
{
    put(&mut past.chain, slip, what);
}

// Adds a commit or an alter with its record at the end, where there is room for the record. It takes no memory.
pub fn append_with(past: &mut Past, slip: Slip, what: What, written: Record)
    requires recorded { count_of what ≡ 1 }
    requires room { vec_len past.old.records < vec_capacity past.old.records }
    ensures { entries past.new ≡ and_entry (entries past.old) slip (event_of (entries past.old) written what) }
{
    put(&mut past.chain, slip, what);
    past.records.push_reserved(written);
}

// Makes room for one record more, or says that there is no memory for it.
pub fn make_room(past: &mut Past) -> Mem<()>
    ensures same { entries past.new ≡ entries past.old }
    ensures room { OnOk result (vec_len past.new.records < vec_capacity past.new.records) }
{
    Ok(past.records.reserve(1)?)
}

// Puts an entry in front of a chain. It takes no memory.
fn put(chain: &mut Chain, slip: Slip, what: What)
    ensures count { recorded chain.new ≡ recorded chain.old + count_of what }
    ensures entries { (records : List Record) → entries_of records chain.new ≡ and_entry (entries_of records chain.old) slip (event_of (entries_of records chain.old) (get_or records (recorded chain.old) no_record) what) }
{
    let Slip {
        author,
        mut room,
        ..
    } = slip;
    *room = mem::replace(chain, Chain::Spent(0));
    *chain = Chain::After(room, Kept { author, what });
}
