// A graph in memory.
use crate::words::change_of;
use dg_graph::{Change, Graph, Plain, Triple};
use dg_schema::{Schema, SchemaFault, read_schema};
use dg_values::{Mem, OutOfMemory, Posting, Str};
use std::alloc::Global;

/// The most bytes that a text has.
pub(crate) const MOST: usize = 1_048_576;

/// A graph under a schema.
#[derive(Drop)]
pub(crate) struct Ground {
    pub(crate) at: Plain,
}

impl Ground {
    /// Nothing is declared, and there is no triple.
    pub(crate) fn new(alloc: Global) -> Mem<Ground> {
        let schema = Schema::new(alloc);
        let graph = Graph::new(alloc)?;
        Ok(Ground {
            at: Plain { schema, graph },
        })
    }

    /// Declares the predicates of a text, over no triple, and says how many these are.
    pub(crate) fn declare(&mut self, alloc: Global, text: &str) -> Mem<Option<String>> {
        if text.len() > MOST {
            return Ok(None);
        }
        match read_schema(alloc, text) {
            Ok(schema) => {
                let count = schema.definitions().len();
                let graph = Graph::new(alloc)?;
                self.at = Plain { schema, graph };
                Ok(Some(format!(in alloc; "{count} declared")?))
            }
            Err(SchemaFault::SchemaSyntax { .. }) => Ok(None),
            Err(SchemaFault::OutOfMemory) => Err(OutOfMemory),
        }
    }

    // Puts a triple in.
    fn put(&mut self, change: &Change) -> Mem<()> {
        self.at.graph.apply(&self.at.schema, change)
    }

    /// Puts the triples of the fields in, and says how many there are then.
    pub(crate) fn set(&mut self, alloc: Global, fields: &str) -> Mem<Option<String>> {
        for words in fields.split('\t') {
            match change_of(alloc, words)? {
                Some(change) => self.put(&change)?,
                None => return Ok(None),
            }
        }
        self.count(alloc)
    }

    fn count(&self, alloc: Global) -> Mem<Option<String>> {
        let count = self.at.graph.triples().len();
        Ok(Some(format!(in alloc; "{count} triples")?))
    }

    // An edge `next` between two nodes.
    fn link(&mut self, alloc: Global, s: u64, o: u64) -> Mem<()> {
        let p = Str::from_str(alloc, "next")?;
        let o = Posting::Uid(o);
        self.put(&Change::Set(Triple { s, p, o }))
    }

    // Edges from a node to each of so many.
    fn link_all(&mut self, alloc: Global, s: u64, count: u64) -> Mem<()> {
        for o in 1..=count {
            self.link(alloc, s, o)?;
        }
        Ok(())
    }

    /// Puts edges `next` in from each of so many nodes to each of them, and says how many triples there are then.
    pub(crate) fn ring(&mut self, alloc: Global, fields: &str) -> Mem<Option<String>> {
        let Ok(count) = fields.parse::<u64>() else {
            return Ok(None);
        };
        let count = count.min(300);
        for s in 1..=count {
            self.link_all(alloc, s, count)?;
        }
        self.count(alloc)
    }
}
