// The plain graph.
ghost use Rattle.std.specs.Prelude.{◌≡◌, [], IfOk, OnOk, OnErr};
ghost use Rattle.dg_values.specs.Ascending.{Ascends, with_one};
ghost use Rattle.dg_values.specs.Order.{posting_cmp};
ghost use Rattle.dg_graph.specs.Graphs.{triple_cmp, cleared, after_change, objects};

use crate::runs::{of_subject, put_alone};
use crate::subject::copied_objects;
use crate::{Change, Triple, is_single};
use dg_schema::Schema;
use dg_sets::{put, take_out};
use dg_values::{Mem, OutOfMemory, Posting};
use std::alloc::Global;
use std::marker::Model;

/// A graph, which contracts see as its triples in ascending order.
#[derive(Debug, Drop)]
pub struct Graph {
    alloc: Global,
    triples: Vec<Triple>,
}

impl Model for Graph {
    ghost use Rattle.std.specs.Prelude.{List};
    ghost use Rattle.dg_values.specs.Ascending.{Ascends};
    ghost use Rattle.dg_graph.specs.declared.change.Triple.{Triple};
    ghost use Rattle.dg_graph.specs.Graphs.{triple_cmp};

    ghost Value = { List Triple };

    ghost view = { λ g. g.triples.items };

    ghost invariant = { λ g. Ascends triple_cmp g.triples.items };
}

// Puts a triple in, in the place of its subject's others where the predicate is declared as no list. After an error
// the triples are as before.
fn set(triples: &mut Vec<Triple>, schema: &Schema, triple: Triple) -> Mem<()>
    requires ascend { Ascends triple_cmp triples.old.items }
    ensures ok { OnOk result (triples.new.items ≡ with_one triple_cmp (cleared schema.now triples.old.items triple) triple) }
    ensures err { OnErr result (triples.new.items ≡ triples.old.items) }
    ensures ascends { Ascends triple_cmp triples.new.items }
{
    if is_single(schema, triple.p.as_str()) {
        put_alone(triples, triple)
    } else {
        put(triples, triple)
    }
}

impl Graph {
    /// The graph without a triple.
    pub fn new(alloc: Global) -> Mem<Graph>
        ensures { IfOk result (λ graph. graph ≡ []) }
    {
        Ok(Graph {
            alloc,
            triples: Vec::new(alloc),
        })
    }

    /// The triples, by predicate, subject and object.
    pub fn triples(&self) -> &[Triple]
        ensures items { result.now ≡ self.now }
        ensures ascend { Ascends triple_cmp self.now }
    {
        self.triples.as_slice()
    }

    /// Makes a change: a set first takes out what the subject has, where the predicate is declared as no list, and
    /// then puts its triple in; a delete takes its triple out. It looks by halves, and takes memory only for a triple
    /// that is put in. After an error the graph is as before.
    pub fn apply(&mut self, schema: &Schema, change: &Change) -> Mem<()>
        ensures ok { OnOk result (self.new ≡ after_change schema.now self.old change.now) }
        ensures err { OnErr result (self.new ≡ self.old) }
    {
        match change {
            Change::Set(triple) => set(&mut self.triples, schema, triple.copy(self.alloc)?),
            Change::Del(triple) => {
                take_out(&mut self.triples, triple);
                Ok(())
            }
        }
    }

    /// The objects of a subject, copied, in ascending order. It looks by halves.
    pub fn objects(&self, alloc: Global, p: &str, s: u64) -> Mem<Vec<Posting>>
        ensures items { IfOk result (λ v. v.items ≡ objects self.now p.now s) }
        ensures ascend { IfOk result (λ v. Ascends posting_cmp v.items) }
    {
        copied_objects(alloc, of_subject(self.triples.as_slice(), p, s))
    }
}
