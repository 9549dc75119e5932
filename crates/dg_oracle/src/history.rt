// The keys of commits, kept so that the last commit of a key is found fast.
ghost use Rattle.std.specs.Prelude.{◌≡◌, List, ◌+◌, ◌<◌, ◌≤◌, ◌++◌, ◌∷◌, [], length, map, IfSome, IfNone, OnOk, OnErr, IfErr};
ghost use Rattle.std.specs.List.{AllByRecursion};
ghost use Rattle.std.specs.List.Sorted.{IsSorted};
ghost use Rattle.std.specs.Vec.{vec_len, vec_capacity};
ghost use Rattle.dg_oracle.specs.Commits.{Commit, Ascends, ts_of, above};
ghost use Rattle.dg_oracle.specs.Histories.{IsHistory, IsLast, IsLayered, HasSameKeys, commits_of, marks_of, cut_above, later_of};
ghost use Rattle.dg_oracle.specs.Verdicts.{last_clash};

use crate::kept;
use crate::mark::Mark;
use crate::run::Run;
use std::alloc::Global;
use std::marker::Model;

// Commits in the order of their timestamps. Their keys stand in runs: a run has the marks of some commits in a
// row, ascending by key. The run of a new commit takes up the runs before it as long as they aren't more than twice
// as long, so there are at most about as many runs as the number of marks has binary digits.
#[derive(Drop)]
pub struct History<K: Ord> {
    times: Vec<u64>,
    runs: Vec<Run<K>>,
}

impl<K: Ord> Model for History<K> {
    ghost Value = { List (Commit K) };

    ghost view = { λ h. commits_of (marks_of h.runs.items) h.times.items };

    ghost invariant = { λ h. IsHistory h.runs.items h.times.items };
}

impl<K: Ord> History<K> {
    pub fn new(alloc: Global) -> Self
        ensures { result ≡ [] }
    {
        History {
            times: Vec::new(alloc),
            runs: Vec::new(alloc),
        }
    }

    // The timestamp of the last commit above the start that has the key.
    pub fn last_clash(&self, start: u64, key: &K) -> Option<u64>
        requires { Ascends 0 (map ts_of self.now) }
        ensures { result ≡ last_clash K.cmp self.now start key.now }
    {
        last_in(self.runs.as_slice(), start, key)
    }
}

impl<K: Ord + Drop> History<K> {
    // Adds the newest commit, or hands its keys back for want of memory.
    pub fn push(&mut self, ts: u64, keys: Vec<K>) -> Result<(), Vec<K>>
        requires newest { AllByRecursion (λ time. time < ts) (map ts_of self.old) }
        requires ascend { IsSorted K.cmp keys.items }
        ensures ok { OnOk result (self.new ≡ self.old ++ (record { ts = ts; keys = keys.items }) ∷ []) }
        ensures err { OnErr result (self.new ≡ self.old) }
        ensures back { IfErr result (λ ks. ks.items ≡ keys.items) }
    {
        if self.times.reserve(1).is_err() || self.runs.reserve(1).is_err() {
            return Err(keys);
        }
        match Vec::with_capacity(*self.times.allocator(), keys.len()) {
            Err(_) => Err(keys),
            Ok(room) => {
                self.times.push_reserved(ts);
                settle(&mut self.runs, Run::of_commit(room, ts, keys));
                Ok(())
            }
        }
    }

    // Leaves the commits above the line.
    pub fn drop_up_to(&mut self, line: u64)
        ensures { self.new ≡ above line self.old }
    {
        kept::drop_times(&mut self.times, line);
        drop_in(&mut self.runs, line);
    }
}

// The timestamp of the last mark above the start that has the key, in all runs.
fn last_in<K: Ord>(runs: &[Run<K>], start: u64, key: &K) -> Option<u64>
    ensures { IsLast K.cmp (marks_of runs.now) start key.now result }
{
    let mut last = None;
    for run in runs {
        last = later(last, run.last(start, key));
    }
    last
}

// The later of two timestamps, where there are any.
fn later(one: Option<u64>, other: Option<u64>) -> Option<u64>
    ensures { result ≡ later_of one other }
{
    match (one, other) {
        (Some(one), Some(other)) => Some(one.max(other)),
        (Some(one), None) => Some(one),
        (None, other) => other,
    }
}

// Adds a run, which takes up the last runs as long as they aren't more than twice as long.
fn settle<K: Ord + Drop>(runs: &mut Vec<Run<K>>, mut run: Run<K>)
    requires room { vec_len runs.old < vec_capacity runs.old }
    requires layered { IsLayered (runs.old.items ++ run ∷ []) }
    ensures layered { IsLayered runs.new.items }
    ensures keys { HasSameKeys (marks_of runs.new.items) (marks_of (runs.old.items ++ run ∷ [])) }
{
    while let Some((older, room)) = take_short(runs, run.len()) {
        run = Run::merged(room, older, run);
    }
    runs.push_reserved(run);
}

// Takes the last run, if it isn't more than twice as long as so many marks more, with room for all of them.
fn take_short<K: Ord + Drop>(runs: &mut Vec<Run<K>>, more: usize) -> Option<(Run<K>, Vec<Mark<K>>)>
    ensures run { IfSome result (λ r. runs.old.items ≡ runs.new.items ++ r.0 ∷ []) }
    ensures empty { IfSome result (λ r. r.1.items ≡ []) }
    ensures fits { IfSome result (λ r. length r.0.marks + more ≤ vec_capacity r.1) }
    ensures none { IfNone result (runs.new.items ≡ runs.old.items) }
    ensures capacity { vec_capacity runs.new ≡ vec_capacity runs.old }
{
    let len = runs.last()?.len();
    if len / 2 > more {
        return None;
    }
    let total = len.checked_add(more)?;
    let room = Vec::with_capacity(*runs.allocator(), total).ok()?;
    let run = runs.pop()?;
    Some((run, room))
}

// Leaves the marks above the line.
fn drop_in<K: Ord + Drop>(runs: &mut Vec<Run<K>>, line: u64)
    ensures { runs.new.items ≡ map (cut_above line) runs.old.items }
{
    for run in runs.iter_mut() {
        run.drop_up_to(line);
    }
}
