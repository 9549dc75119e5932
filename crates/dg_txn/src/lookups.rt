// What is looked up in a graph over pins and own gains.
ghost use Rattle.std.specs.Prelude.{◌≡◌, ◌≤◌, ◌+◌, true, List, IfOk, OnOk, filter_map, if◌then◌else◌, option_copied};
ghost use Rattle.std.specs.Ordering.{nat_cmp};
ghost use Rattle.dg_values.specs.Ascending.{ascending};
ghost use Rattle.dg_values.specs.declared.value.Posting.TheVariants as postings;
ghost use Rattle.dg_graph.specs.declared.change.Change.{Change};
ghost use Rattle.dg_graph.specs.Graphs.{after_changes};
ghost use Rattle.dg_graph.specs.Lookups as nodes;
ghost use Rattle.dg_graph.specs.Lookups.{has_reverse, is_indexed_by, has_numbers, subjects_of, subjects_where, has_token, node_in};
ghost use Rattle.dg_txn.specs.Own.{seen, AreOwn};
ghost use Rattle.dg_txn.specs.declared.span.Over.TheVariants as spans;

use crate::Present;
use crate::gains::Gains;
use crate::overlay::read_over;
use crate::span::{Over, Span};
use crate::walk::{nodes_shown, push_nodes};
use dg_keys::Key;
use dg_tokens::{IndexToken, copy_token};
use dg_uids::Uids;
use dg_values::{Mem, OutOfMemory, Steps, Str, Tokenizer, Value};
use std::alloc::Global;
use std::sync::ledger::Ledger;

// The nodes that a key lists.
fn nodes_at<L: Ledger>(
    alloc: Global,
    base: &Present,
    gains: &Gains,
    key: &Key,
    reads: &mut Steps<L>,
) -> Mem<Uids>
    ensures nodes { IfOk result (λ uids. uids ≡ ascending nat_cmp (filter_map node_in (seen base.now.schema base.now.graph gains.now key.now))) }
    ensures one_read { reads.new ≡ reads.old + 1 }
{
    let list = read_over(alloc, base, gains, key, reads)?;
    let mut found = Vec::with_capacity(alloc, list.len())?;
    push_nodes(&mut found, list.as_slice())?;
    Ok(Uids::gathered(found))
}

// The nodes that point to a node.
pub fn subjects<L: Ledger>(
    alloc: Global,
    base: &Present,
    gains: &Gains,
    p: &str,
    o: u64,
    reads: &mut Steps<L>,
) -> Mem<Uids>
    requires reverse { has_reverse base.now.schema p.now ≡ true }
    ensures nodes { (own : List Change) → AreOwn base.now.schema base.now.graph own gains.now → IfOk result (λ uids. uids ≡ subjects_of (after_changes base.now.schema base.now.graph own) p.now (postings.Uid o)) }
    ensures one_read { OnOk result (reads.new ≡ reads.old + 1) }
{
    let p = Str::from_str(alloc, p)?;
    nodes_at(alloc, base, gains, &Key::Reverse { p, o }, reads)
}

// The nodes that have an object with a token.
pub fn by_token<L: Ledger>(
    alloc: Global,
    base: &Present,
    gains: &Gains,
    p: &str,
    t: &IndexToken,
    reads: &mut Steps<L>,
) -> Mem<Uids>
    requires tokenizer { is_indexed_by base.now.schema p.now t.now.tokenizer ≡ true }
    ensures nodes { (own : List Change) → AreOwn base.now.schema base.now.graph own gains.now → IfOk result (λ uids. uids ≡ subjects_where (has_token t.now) (after_changes base.now.schema base.now.graph own) p.now) }
    ensures one_read { OnOk result (reads.new ≡ reads.old + 1) }
{
    let p = Str::from_str(alloc, p)?;
    let t = copy_token(alloc, t)?;
    nodes_at(alloc, base, gains, &Key::Index { p, t }, reads)
}

// An equal value, where there is one.
fn copied(alloc: Global, value: Option<&Value>) -> Mem<Option<Value>>
    ensures { IfOk result (λ copy. copy ≡ option_copied value.entry) }
{
    match value {
        None => Ok(None),
        Some(value) => Ok(Some(value.copy(alloc)?)),
    }
}

// The nodes that have an object with a token between two values, both included.
pub fn by_token_range<L: Ledger>(
    alloc: Global,
    base: &Present,
    gains: &Gains,
    p: &str,
    tokenizer: Tokenizer,
    low: Option<&Value>,
    high: Option<&Value>,
    reads: &mut Steps<L>,
) -> Mem<Uids>
    requires tokenizer { is_indexed_by base.now.schema p.now tokenizer ≡ true }
    ensures nodes { (own : List Change) → AreOwn base.now.schema base.now.graph own gains.now → IfOk result (λ uids. uids ≡ nodes.by_token_range (after_changes base.now.schema base.now.graph own) p.now tokenizer (option_copied low.entry) (option_copied high.entry)) }
    ensures more_reads { reads.old ≤ reads.new }
{
    let pred = Str::from_str(alloc, p)?;
    let low = copied(alloc, low)?;
    let high = copied(alloc, high)?;
    let span = Span {
        pred,
        over: Over::Tokens {
            tokenizer,
            low,
            high,
        },
    };
    let found = nodes_shown(alloc, base, gains, &span, reads)?;
    Ok(Uids::gathered(found))
}

// The nodes that have an object.
pub fn holders<L: Ledger>(
    alloc: Global,
    base: &Present,
    gains: &Gains,
    p: &str,
    reads: &mut Steps<L>,
) -> Mem<Uids>
    ensures nodes { (own : List Change) → AreOwn base.now.schema base.now.graph own gains.now → IfOk result (λ uids. uids ≡ nodes.holders (after_changes base.now.schema base.now.graph own) p.now) }
    ensures more_reads { reads.old ≤ reads.new }
{
    let pred = Str::from_str(alloc, p)?;
    let span = Span {
        pred,
        over: Over::Subjects,
    };
    let found = nodes_shown(alloc, base, gains, &span, reads)?;
    Ok(Uids::gathered(found))
}

// The kind of keys by which nodes are counted.
fn counts(reverse: bool, low: u64, high: Option<u64>) -> Over
    ensures { result ≡ (if reverse then spans.Pointers low high else spans.Objects low high) }
{
    if reverse {
        Over::Pointers { low, high }
    } else {
        Over::Objects { low, high }
    }
}

// The nodes with at least one object and with so many, or that at least one and so many subjects point to. A number of 0
// has no key. Without an upper end all keys from the lower one on are read.
pub fn by_count<L: Ledger>(
    alloc: Global,
    base: &Present,
    gains: &Gains,
    p: &str,
    reverse: bool,
    low: u64,
    high: Option<u64>,
    reads: &mut Steps<L>,
) -> Mem<Uids>
    requires numbers { has_numbers base.now.schema p.now reverse ≡ true }
    ensures nodes { (own : List Change) → AreOwn base.now.schema base.now.graph own gains.now → IfOk result (λ uids. uids ≡ nodes.by_count (after_changes base.now.schema base.now.graph own) p.now reverse low high) }
    ensures more_reads { reads.old ≤ reads.new }
{
    let pred = Str::from_str(alloc, p)?;
    let over = counts(reverse, low, high);
    let span = Span { pred, over };
    let found = nodes_shown(alloc, base, gains, &span, reads)?;
    Ok(Uids::gathered(found))
}
