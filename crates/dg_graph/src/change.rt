// Triples, and changes of a graph.
ghost use Rattle.std.specs.Prelude.{◌≡◌, IfOk};
ghost use Rattle.dg_graph.specs.Changes.{changed};

use dg_sets::InOrder;
use dg_values::{Mem, OutOfMemory, Posting, Str};
use std::alloc::Global;
use std::cmp::Ordering;

/// A subject, a predicate and an object.
#[derive(Debug, Drop)]
pub struct Triple {
    /// The subject: a node, by its number.
    pub s: u64,
    /// The predicate's name.
    pub p: Str,
    /// The object: a node or a value.
    pub o: Posting,
}

/// Puts a triple into a graph, or takes it out.
#[derive(Debug, Drop)]
pub enum Change {
    /// The triple is in the graph from then on, in the place of the subject's other objects where the predicate is no
    /// list.
    Set(Triple),
    /// The triple isn't in the graph from then on.
    Del(Triple),
}

impl Triple {
    /// An equal triple.
    pub fn copy(&self, alloc: Global) -> Mem<Triple>
        ensures { IfOk result (λ t. t ≡ self.now) }
    {
        let p = self.p.copy(alloc)?;
        let o = self.o.copy(alloc)?;
        Ok(Triple { s: self.s, p, o })
    }
}

impl Change {
    /// The triple that is put in or taken out.
    pub fn triple(&self) -> &Triple
        ensures { result.now ≡ changed self.now }
    {
        match self {
            Change::Set(triple) => triple,
            Change::Del(triple) => triple,
        }
    }
}

/// By predicate, subject and object.
impl InOrder for Triple {
    ghost use Rattle.std.specs.Prelude.{ℕ};
    ghost use Rattle.std.specs.Ordering.{nat_cmp, ordering_then};
    ghost use Rattle.dg_values.specs.Order.{text_cmp, posting_cmp};
    ghost use Rattle.dg_values.specs.declared.value.Posting.{Posting};
    ghost use Rattle.dg_values.proofs.OrderLaws.{posting_order};
    ghost use Rattle.dg_sets.proofs.MadeOrders.{nat_order, text_order, then_order};
    ghost use Rattle.dg_graph.specs.declared.change.Triple.{Triple};
    ghost use Rattle.dg_graph.specs.Graphs.{triple_cmp};

    ghost order = { triple_cmp };

    fn compare(&self, other: &Triple) -> Ordering {
        self.p
            .compare(&other.p)
            .then_with(|| self.s.cmp(&other.s))
            .then_with(|| self.o.compare(&other.o))
    }

    ghost total = { then_order (λ (t : Triple). t.p) (λ t. (t.s, t.o)) text_cmp (λ a b. ordering_then (nat_cmp a.0 b.0) (posting_cmp a.1 b.1)) text_order (then_order (λ (q : ℕ × Posting). q.0) (λ q. q.1) nat_cmp posting_cmp nat_order posting_order (λ x y e f. λ i. (e i, f i))) (λ x y e f. λ i. record { s = (f i).0; p = e i; o = (f i).1 }) };
}
