// A graph that is read list by list.
use dg_schema::Schema;
use dg_tokens::IndexToken;
use dg_uids::Uids;
use dg_values::{Mem, Posting, Steps, Tokenizer, Value};
use std::alloc::Global;
use std::sync::ledger::Ledger;

/// A graph at one place in time, under the schema there. Each list that is read is one step of the counter. The error
/// of each call is want of memory.
pub trait Snapshot {
    ghost use Rattle.std.specs.Prelude.{◌≡◌, ◌+◌, ◌≤◌, true, IfOk, OnOk, List, option_copied};
    ghost use Rattle.dg_values.specs.declared.value.Posting.TheVariants as postings;
    ghost use Rattle.dg_schema.specs.declared.definition.PredDef.{PredDef};
    ghost use Rattle.dg_graph.specs.declared.change.Triple.{Triple};
    ghost use Rattle.dg_graph.specs.Graphs.{objects};
    ghost use Rattle.dg_graph.specs.Lookups.{has_reverse, is_indexed_by, has_numbers, subjects_of, subjects_where, has_token, holders as nodes_with_objects, by_token_range as nodes_by_range, by_count as nodes_by_count};

    /// The triples, in ascending order.
    ghost graph: { Self → List Triple };

    /// The definitions, in the order in which they were declared.
    ghost declared: { Self → List PredDef };

    /// The schema.
    fn schema(&self) -> &Schema
        ensures { result.now ≡ declared self.now };

    /// The objects of a subject, copied, in ascending order. It reads one list.
    fn objects<L: Ledger>(
        &self,
        alloc: Global,
        p: &str,
        s: u64,
        reads: &mut Steps<L>,
    ) -> Mem<Vec<Posting>>
        ensures items { IfOk result (λ v. v.items ≡ objects (graph self.now) p.now s) }
        ensures one_read { OnOk result (reads.new ≡ reads.old + 1) };

    /// The nodes that point to a node, by a predicate that is declared with lists of these. It reads one list.
    fn subjects<L: Ledger>(&self, alloc: Global, p: &str, o: u64, reads: &mut Steps<L>) -> Mem<Uids>
        requires reverse { has_reverse (declared self.now) p.now ≡ true }
        ensures nodes { IfOk result (λ uids. uids ≡ subjects_of (graph self.now) p.now (postings.Uid o)) }
        ensures one_read { OnOk result (reads.new ≡ reads.old + 1) };

    /// The nodes that have an object with a token, by a predicate that is declared with an index by its tokenizer. It
    /// reads one list.
    fn by_token<L: Ledger>(
        &self,
        alloc: Global,
        p: &str,
        t: &IndexToken,
        reads: &mut Steps<L>,
    ) -> Mem<Uids>
        requires tokenizer { is_indexed_by (declared self.now) p.now t.now.tokenizer ≡ true }
        ensures nodes { IfOk result (λ uids. uids ≡ subjects_where (has_token t.now) (graph self.now) p.now) }
        ensures one_read { OnOk result (reads.new ≡ reads.old + 1) };

    /// The nodes that have an object with a token between two values, both included, by a predicate that is declared
    /// with an index by the tokenizer. An end that is None holds nothing back.
    fn by_token_range<L: Ledger>(
        &self,
        alloc: Global,
        p: &str,
        tokenizer: Tokenizer,
        low: Option<&Value>,
        high: Option<&Value>,
        reads: &mut Steps<L>,
    ) -> Mem<Uids>
        requires tokenizer { is_indexed_by (declared self.now) p.now tokenizer ≡ true }
        ensures nodes { IfOk result (λ uids. uids ≡ nodes_by_range (graph self.now) p.now tokenizer (option_copied low.entry) (option_copied high.entry)) }
        ensures more_reads { reads.old ≤ reads.new };

    /// The nodes that have an object.
    fn holders<L: Ledger>(&self, alloc: Global, p: &str, reads: &mut Steps<L>) -> Mem<Uids>
        ensures nodes { IfOk result (λ uids. uids ≡ nodes_with_objects (graph self.now) p.now) }
        ensures more_reads { reads.old ≤ reads.new };

    /// The nodes with at least one object and with `low` to `high` of them, both included; or where `reverse`, those that
    /// at least one and `low` to `high` subjects point to. A `high` that is None holds nothing back. The predicate is declared
    /// with lists of these.
    fn by_count<L: Ledger>(
        &self,
        alloc: Global,
        p: &str,
        reverse: bool,
        low: u64,
        high: Option<u64>,
        reads: &mut Steps<L>,
    ) -> Mem<Uids>
        requires numbers { has_numbers (declared self.now) p.now reverse ≡ true }
        ensures nodes { IfOk result (λ uids. uids ≡ nodes_by_count (graph self.now) p.now reverse low high) }
        ensures more_reads { reads.old ≤ reads.new };
}
