// Marks in order, found by halving.
ghost use Rattle.std.specs.Prelude.{◌≡◌, ℕ, ◌+◌, ◌<◌, ◌≤◌, ◌++◌, [], length, map, max, true, false, IsTrue};
ghost use Rattle.std.specs.List.Sorted.{IsSorted, IsPartitionPoint};
ghost use Rattle.std.specs.Ordering.{is_le};
ghost use Rattle.std.specs.Vec.{vec_capacity};
ghost use Rattle.dg_oracle.specs.Histories.{Layer, IsRun, IsLast, IsApart, Ascending, TakesGreater, marked_at, marks_above, cut_above, keys_at, is_after, last_of};

use crate::mark::Mark;
use std::marker::Model;

// Marks that ascend, none of them newer than `newest`.
#[derive(Drop)]
pub struct Run<K: Ord> {
    newest: u64,
    marks: Vec<Mark<K>>,
}

impl<K: Ord> Model for Run<K> {
    ghost Value = { Layer K };

    ghost view = { λ r. record { newest = r.newest; marks = r.marks.items } };

    ghost invariant = { λ r. IsRun K.cmp r.newest r.marks.items };
}

impl<K: Ord> Run<K> {
    pub fn len(&self) -> usize
        ensures { result ≡ length self.now.marks }
    {
        self.marks.len()
    }

    // The timestamp of the last mark above the start that has the key.
    pub fn last(&self, start: u64, key: &K) -> Option<u64>
        ensures { IsLast K.cmp self.now.marks start key.now result }
    {
        if self.newest <= start {
            return None;
        }
        last_in(self.marks.as_slice(), start, key)
    }
}

impl<K: Ord + Drop> Run<K> {
    // The marks of one commit, put into room that was taken for them.
    pub fn of_commit(room: Vec<Mark<K>>, ts: u64, keys: Vec<K>) -> Self
        requires empty { room.items ≡ [] }
        requires fits { length keys.items ≤ vec_capacity room }
        requires ascend { IsSorted K.cmp keys.items }
        ensures { result ≡ record { newest = ts; marks = map (marked_at ts) keys.items } }
    {
        Run {
            newest: ts,
            marks: marks_at(room, ts, keys),
        }
    }

    // The marks of both, put into room that was taken for them.
    pub fn merged(room: Vec<Mark<K>>, older: Run<K>, newer: Run<K>) -> Self
        requires empty { room.items ≡ [] }
        requires fits { length older.marks + length newer.marks ≤ vec_capacity room }
        requires apart { IsApart older.marks newer.marks }
        ensures { (ts : ℕ) → keys_at ts result.marks ≡ keys_at ts older.marks ++ keys_at ts newer.marks }
    {
        Run {
            newest: older.newest.max(newer.newest),
            marks: merge(room, older.marks, newer.marks),
        }
    }

    // Leaves the marks above the line.
    pub fn drop_up_to(&mut self, line: u64)
        ensures { self.new ≡ cut_above line self.old }
    {
        drop_marks(&mut self.marks, line);
    }
}

// How many marks have a key that is not above this one.
fn up_to<K: Ord>(marks: &[Mark<K>], key: &K) -> usize
    requires { Ascending K.cmp marks.now }
    ensures bound { result ≤ length marks.now }
    ensures point { IsPartitionPoint (λ m. is_le (K.cmp m.key key.now) ≡ true) (λ m. is_le (K.cmp m.key key.now) ≡ false) marks.now result }
{
    marks.partition_point(|m| m.key.cmp(key).is_le())
}

// The timestamp of the last mark above the start that has the key.
fn last_in<K: Ord>(marks: &[Mark<K>], start: u64, key: &K) -> Option<u64>
    requires { Ascending K.cmp marks.now }
    ensures { IsLast K.cmp marks.now start key.now result }
{
    let end = up_to(marks, key);
    if end == 0 {
        return None;
    }
    let mark = &marks[end - 1];
    if mark.key.cmp(key).is_eq() && start < mark.ts {
        Some(mark.ts)
    } else {
        None
    }
}

// The keys of a commit, marked with its timestamp.
fn marks_at<K: Drop>(room: Vec<Mark<K>>, ts: u64, keys: Vec<K>) -> Vec<Mark<K>>
    requires empty { room.items ≡ [] }
    requires fits { length keys.items ≤ vec_capacity room }
    ensures { result.items ≡ map (marked_at ts) keys.items }
{
    let mut marks = room;
    for key in keys {
        marks.push_reserved(Mark { key, ts });
    }
    marks
}

// The marks of both in order. They are taken from the ends, and then turned round.
fn merge<K: Ord + Drop>(
    room: Vec<Mark<K>>,
    mut older: Vec<Mark<K>>,
    mut newer: Vec<Mark<K>>,
) -> Vec<Mark<K>>
    requires empty { room.items ≡ [] }
    requires fits { length older.items + length newer.items ≤ vec_capacity room }
    requires apart { IsApart older.items newer.items }
    requires older_ascends { Ascending K.cmp older.items }
    requires newer_ascends { Ascending K.cmp newer.items }
    ensures keys { (ts : ℕ) → keys_at ts result.items ≡ keys_at ts older.items ++ keys_at ts newer.items }
    ensures ascends { Ascending K.cmp result.items }
{
    let mut marks = room;
    while let Some(mark) = pop_greater(&mut older, &mut newer) {
        marks.push_reserved(mark);
    }
    marks.reverse();
    marks
}

// Takes the greater of the last marks of both.
fn pop_greater<K: Ord>(older: &mut Vec<Mark<K>>, newer: &mut Vec<Mark<K>>) -> Option<Mark<K>>
    ensures { TakesGreater K.cmp older.old.items newer.old.items result older.new.items newer.new.items }
{
    if is_older_greater(older.as_slice(), newer.as_slice()) {
        older.pop()
    } else {
        newer.pop()
    }
}

// Whether the last mark of the older ones is to be taken before that of the newer ones.
fn is_older_greater<K: Ord>(older: &[Mark<K>], newer: &[Mark<K>]) -> bool
    ensures { result ≡ is_after K.cmp (last_of older.now) (last_of newer.now) }
{
    match (older.last(), newer.last()) {
        (Some(old), Some(new)) => old.order(new).is_gt(),
        (Some(_), None) => true,
        (None, _) => false,
    }
}

// Leaves the marks above the line.
fn drop_marks<K: Drop>(marks: &mut Vec<Mark<K>>, line: u64)
    ensures { marks.new.items ≡ marks_above line marks.old.items }
{
    marks.retain(|m| m.ts > line);
}
