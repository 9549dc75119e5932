// A graph in memory, and what made it.
use crate::fault::{Answer, Fault};
use crate::postings::changes;
use dg_graph::{Change, Graph, Plain};
use dg_schema::{Schema, SchemaFault, read_schema};
use dg_values::{Mem, OutOfMemory};
use std::alloc::Global;

// The most bytes that a text has.
pub(crate) const MOST: usize = 1_048_576;

// A graph under a schema, and the changes that made it.
#[derive(Drop)]
pub(crate) struct Ground {
    pub(crate) at: Plain,
    pub(crate) base: Vec<Change>,
}

impl Ground {
    // Nothing is declared, and there is no triple.
    pub(crate) fn new(alloc: Global) -> Mem<Ground> {
        let schema = Schema::new(alloc);
        let graph = Graph::new(alloc)?;
        Ok(Ground {
            at: Plain { schema, graph },
            base: Vec::new(alloc),
        })
    }

    // Makes a change, and keeps it.
    pub(crate) fn apply_one(&mut self, change: Change) -> Mem<()> {
        self.at.graph.apply(&self.at.schema, &change)?;
        self.base.push(change)?;
        Ok(())
    }

    // Makes changes, and keeps them.
    pub(crate) fn apply(&mut self, alloc: Global, words: &[&str]) -> Answer<usize> {
        for change in changes(alloc, words)? {
            self.apply_one(change)?;
        }
        Ok(self.at.graph.triples().len())
    }
}

// The schema that a text says.
pub(crate) fn schema_of(alloc: Global, text: &str) -> Answer<Schema> {
    if text.len() > MOST {
        return Err(Fault::Unfit);
    }
    match read_schema(alloc, text) {
        Ok(schema) => Ok(schema),
        Err(SchemaFault::SchemaSyntax { .. }) => Err(Fault::Unfit),
        Err(SchemaFault::OutOfMemory) => Err(Fault::OutOfMemory),
    }
}

// The lines of a schema, with a picture in the place of the end of each.
pub(crate) fn schema_text(alloc: Global, schema: &Schema) -> Answer<String> {
    let text = schema.text_of()?;
    Ok(
        text.chars()
            .map(|c| if c == '\n' { '␊' } else { c })
            .collect(alloc)?,
    )
}
