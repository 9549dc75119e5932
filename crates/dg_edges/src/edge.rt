// Statements that were checked against a schema.
use dg_values::{List, Str, Value};
use std::marker::Model;

/// A node as a checked statement names it.
#[derive(Debug, Drop)]
pub enum Named {
    /// The node of this number.
    Uid(u64),
    /// The new node of this name.
    New(Str),
}

/// What stands behind the predicate of a checked statement.
#[derive(Debug, Drop)]
pub enum Target {
    /// A node.
    Node(Named),
    /// A value of the predicate's kind.
    Value(Value),
    /// All objects that the subject has.
    All,
}

/// A checked statement.
#[derive(Debug, Drop)]
pub struct Edge {
    /// Whether it deletes; else it sets.
    pub delete: bool,
    /// The subject.
    pub s: Named,
    /// The name of the predicate.
    pub p: Str,
    /// The object.
    pub o: Target,
}

/// A mutation whose predicates, objects and literals were checked against a schema. Contracts see its statements in
/// their order.
#[derive(Debug, Drop)]
pub struct Resolved {
    pub(crate) edges: List<Edge>,
}

impl Model for Resolved {
    ghost use Rattle.std.specs.Prelude.{List};
    ghost use Rattle.dg_edges.specs.declared.edge.Edge.{Edge};

    ghost Value = { List Edge };

    ghost view = { λ r. r.edges };
}

impl Resolved {
    ghost use Rattle.std.specs.Prelude.{◌≡◌, ◌↔◌, IsTrue, []};

    /// Whether there is no statement. It takes no memory.
    pub fn is_empty(&self) -> bool
        ensures { IsTrue result ↔ (self.now ≡ []) }
    {
        self.edges.is_empty()
    }
}
