// Where the triples of a subject stand.
ghost use Rattle.std.specs.Prelude.{◌≡◌, ◌≤◌, true, false, length, filter, take, drop, ◌∷◌, ◌++◌, OnOk, OnErr};
ghost use Rattle.std.specs.List.Sorted.{IsPartitionPoint};
ghost use Rattle.std.specs.Ordering.{is_lt, is_le};
ghost use Rattle.dg_values.specs.Ascending.{Ascends, with_one};
ghost use Rattle.dg_graph.specs.Graphs.{triple_cmp, is_of_subject};
ghost use Rattle.dg_graph.specs.Subjects.{subject_cmp, without_subject, IsRun};

use crate::Triple;
use dg_values::{Mem, OutOfMemory};
use std::cmp::Ordering;

// Compares a triple's predicate and subject with these.
fn compare_subject(triple: &Triple, p: &str, s: u64) -> Ordering
    ensures { result ≡ subject_cmp p.now s triple.now }
{
    triple.p.as_str().cmp(p).then_with(|| triple.s.cmp(&s))
}

// How many triples come before those of a subject.
fn first(triples: &[Triple], p: &str, s: u64) -> usize
    requires ascend { Ascends triple_cmp triples.now }
    ensures within { result ≤ length triples.now }
    ensures point { IsPartitionPoint (λ t. is_lt (subject_cmp p.now s t) ≡ true) (λ t. is_lt (subject_cmp p.now s t) ≡ false) triples.now result }
{
    triples.partition_point(|t| compare_subject(t, p, s).is_lt())
}

// How many triples don't come behind those of a subject.
fn behind(triples: &[Triple], p: &str, s: u64) -> usize
    requires ascend { Ascends triple_cmp triples.now }
    ensures within { result ≤ length triples.now }
    ensures point { IsPartitionPoint (λ t. is_le (subject_cmp p.now s t) ≡ true) (λ t. is_le (subject_cmp p.now s t) ≡ false) triples.now result }
{
    triples.partition_point(|t| compare_subject(t, p, s).is_le())
}

// Where the triples of a subject begin, and where they end.
fn run_of(triples: &[Triple], p: &str, s: u64) -> (usize, usize)
    requires ascend { Ascends triple_cmp triples.now }
    ensures order { result.0 ≤ result.1 }
    ensures within { result.1 ≤ length triples.now }
    ensures run { IsRun p.now s triples.now result.0 result.1 }
{
    (first(triples, p, s), behind(triples, p, s))
}

// The triples of a subject, which it looks for by halves.
pub(crate) fn of_subject<'a>(triples: &'a [Triple], p: &str, s: u64) -> &'a [Triple]
    requires ascend { Ascends triple_cmp triples.now }
    ensures { result.now ≡ filter (is_of_subject p.now s) triples.now }
{
    let (first, behind) = run_of(triples, p, s);
    &triples[first..behind]
}

// Puts a triple in the place of those from one place up to another. After an error the triples are as before.
fn put_over(triples: &mut Vec<Triple>, first: usize, behind: usize, triple: Triple) -> Mem<()>
    requires order { first ≤ behind }
    requires within { behind ≤ length triples.old.items }
    ensures ok { OnOk result (triples.new.items ≡ take first triples.old.items ++ triple ∷ drop behind triples.old.items) }
    ensures err { OnErr result (triples.new.items ≡ triples.old.items) }
{
    if first == behind {
        return Ok(triples.insert(first, triple)?);
    }
    triples[first] = triple;
    triples.drain(first + 1..behind);
    Ok(())
}

// Puts a triple in the place of all those of its subject. After an error the triples are as before.
pub(crate) fn put_alone(triples: &mut Vec<Triple>, triple: Triple) -> Mem<()>
    requires ascend { Ascends triple_cmp triples.old.items }
    ensures ok { OnOk result (triples.new.items ≡ with_one triple_cmp (without_subject triple.p triple.s triples.old.items) triple) }
    ensures err { OnErr result (triples.new.items ≡ triples.old.items) }
    ensures ascends { Ascends triple_cmp triples.new.items }
{
    let (first, behind) = run_of(triples.as_slice(), triple.p.as_str(), triple.s);
    put_over(triples, first, behind, triple)
}
