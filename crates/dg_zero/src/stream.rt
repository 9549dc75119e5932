// The first record above a timestamp.
ghost use Rattle.std.specs.Prelude.{◌≡◌, ◌≤◌, true, false, nat_lt, nat_le, find, length, option_copied, slice_get, map};
ghost use Rattle.std.specs.List.Sorted.{IsPartitionPoint};
ghost use Rattle.dg_oracle.specs.Commits.{Ascends};
ghost use Rattle.dg_zero.specs.Records.{ts_of};

use dg_keys::Record;

// How many records aren't above a timestamp.
fn records_upto(records: &[Record], after: u64) -> usize
    requires { Ascends 0 (map ts_of records.now) }
    ensures within { result ≤ length records.now }
    ensures point { IsPartitionPoint (λ r. nat_le r.ts after ≡ true) (λ r. nat_le r.ts after ≡ false) records.now result }
{
    records.partition_point(|written| written.ts <= after)
}

// The record at a place, where there is one.
fn record_at(records: &[Record], place: usize) -> Option<&Record>
    ensures { option_copied result ≡ slice_get records.now place }
{
    records.get(place)
}

// The first record above a timestamp, by halves.
pub fn record_after(records: &[Record], after: u64) -> Option<&Record>
    requires ascend { Ascends 0 (map ts_of records.now) }
    ensures { option_copied result ≡ find (λ r. nat_lt after r.ts) records.now }
{
    record_at(records, records_upto(records, after))
}
