// A graph in memory as a snapshot.
use crate::{Graph, Snapshot, found, indexed, numbers};
use dg_schema::Schema;
use dg_tokens::IndexToken;
use dg_uids::Uids;
use dg_values::{Mem, Posting, Steps, Tokenizer, Value};
use std::alloc::Global;
use std::sync::ledger::Ledger;

/// A graph in memory, and the schema that it is under.
#[derive(Debug, Drop)]
pub struct Plain {
    /// The schema.
    pub schema: Schema,
    /// The graph.
    pub graph: Graph,
}

impl Snapshot for Plain {
    ghost graph = { λ at. at.graph };

    ghost declared = { λ at. at.schema };

    fn schema(&self) -> &Schema {
        &self.schema
    }

    fn objects<L: Ledger>(
        &self,
        alloc: Global,
        p: &str,
        s: u64,
        reads: &mut Steps<L>,
    ) -> Mem<Vec<Posting>> {
        reads.tick();
        self.graph.objects(alloc, p, s)
    }

    fn subjects<L: Ledger>(
        &self,
        alloc: Global,
        p: &str,
        o: u64,
        reads: &mut Steps<L>,
    ) -> Mem<Uids> {
        reads.tick();
        found::subjects(alloc, self.graph.triples(), p, o)
    }

    fn by_token<L: Ledger>(
        &self,
        alloc: Global,
        p: &str,
        t: &IndexToken,
        reads: &mut Steps<L>,
    ) -> Mem<Uids> {
        reads.tick();
        indexed::by_token(alloc, self.graph.triples(), p, t)
    }

    fn by_token_range<L: Ledger>(
        &self,
        alloc: Global,
        p: &str,
        tokenizer: Tokenizer,
        low: Option<&Value>,
        high: Option<&Value>,
        reads: &mut Steps<L>,
    ) -> Mem<Uids> {
        reads.tick();
        indexed::by_token_range(alloc, self.graph.triples(), p, tokenizer, low, high)
    }

    fn holders<L: Ledger>(&self, alloc: Global, p: &str, reads: &mut Steps<L>) -> Mem<Uids> {
        reads.tick();
        found::holders(alloc, self.graph.triples(), p)
    }

    fn by_count<L: Ledger>(
        &self,
        alloc: Global,
        p: &str,
        reverse: bool,
        low: u64,
        high: Option<u64>,
        reads: &mut Steps<L>,
    ) -> Mem<Uids> {
        reads.tick();
        numbers::by_count(alloc, &self.graph, p, reverse, low, high)
    }
}
