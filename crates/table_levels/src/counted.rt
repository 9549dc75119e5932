// A graph in memory that counts what it is asked.
use dg_graph::{Plain, Snapshot};
use dg_schema::Schema;
use dg_tokens::IndexToken;
use dg_uids::Uids;
use dg_values::{Mem, OutOfMemory, Posting, Steps, Tokenizer, Value};
use std::alloc::Global;
use std::cell::Cell;
use std::sync::ledger::Ledger;

/// A graph in memory, and how many calls of each kind were made of it.
#[derive(Drop)]
pub(crate) struct Counted<'a> {
    plain: &'a Plain,
    objects: Cell<u64>,
    subjects: Cell<u64>,
    by_token: Cell<u64>,
    by_token_range: Cell<u64>,
    holders: Cell<u64>,
    by_count: Cell<u64>,
}

// One call more.
fn add_one(calls: &Cell<u64>) {
    calls.set(calls.get().saturating_add(1));
}

impl<'a> Counted<'a> {
    /// A graph of which nothing was asked.
    pub(crate) fn over(plain: &'a Plain) -> Counted<'a> {
        Counted {
            plain,
            objects: Cell::new(0),
            subjects: Cell::new(0),
            by_token: Cell::new(0),
            by_token_range: Cell::new(0),
            holders: Cell::new(0),
            by_count: Cell::new(0),
        }
    }

    /// How many calls of each kind were made.
    pub(crate) fn calls(&self, alloc: Global) -> Mem<String> {
        let objects = self.objects.get();
        let subjects = self.subjects.get();
        let by_token = self.by_token.get();
        let by_token_range = self.by_token_range.get();
        let holders = self.holders.get();
        let by_count = self.by_count.get();
        Ok(format!(in alloc;
            "objects {objects} subjects {subjects} by_token {by_token} by_token_range {by_token_range} holders {holders} by_count {by_count}"
        )?)
    }
}

impl Snapshot for Counted<'_> {
    ghost graph = { λ counted. counted.plain.now.graph };

    ghost declared = { λ counted. counted.plain.now.schema };

    fn schema(&self) -> &Schema {
        self.plain.schema()
    }

    fn objects<L: Ledger>(
        &self,
        alloc: Global,
        p: &str,
        s: u64,
        reads: &mut Steps<L>,
    ) -> Mem<Vec<Posting>> {
        add_one(&self.objects);
        self.plain.objects(alloc, p, s, reads)
    }

    fn subjects<L: Ledger>(
        &self,
        alloc: Global,
        p: &str,
        o: u64,
        reads: &mut Steps<L>,
    ) -> Mem<Uids> {
        add_one(&self.subjects);
        self.plain.subjects(alloc, p, o, reads)
    }

    fn by_token<L: Ledger>(
        &self,
        alloc: Global,
        p: &str,
        t: &IndexToken,
        reads: &mut Steps<L>,
    ) -> Mem<Uids> {
        add_one(&self.by_token);
        self.plain.by_token(alloc, p, t, reads)
    }

    fn by_token_range<L: Ledger>(
        &self,
        alloc: Global,
        p: &str,
        tokenizer: Tokenizer,
        low: Option<&Value>,
        high: Option<&Value>,
        reads: &mut Steps<L>,
    ) -> Mem<Uids> {
        add_one(&self.by_token_range);
        self.plain
            .by_token_range(alloc, p, tokenizer, low, high, reads)
    }

    fn holders<L: Ledger>(&self, alloc: Global, p: &str, reads: &mut Steps<L>) -> Mem<Uids> {
        add_one(&self.holders);
        self.plain.holders(alloc, p, reads)
    }

    fn by_count<L: Ledger>(
        &self,
        alloc: Global,
        p: &str,
        reverse: bool,
        low: u64,
        high: Option<u64>,
        reads: &mut Steps<L>,
    ) -> Mem<Uids> {
        add_one(&self.by_count);
        self.plain.by_count(alloc, p, reverse, low, high, reads)
    }
}
