// Whether triples fit a schema.
ghost use Rattle.std.specs.Prelude.{◌≡◌};
ghost use Rattle.dg_graph.specs.Graphs.{is_of_kind, fits};

use crate::Triple;
use dg_schema::Schema;
use dg_values::{Kind, Posting, Value};

// Whether an object is of a predicate of this kind.
fn is_of_kind(kind: Kind, object: &Posting) -> bool
    ensures { result ≡ is_of_kind kind object.now }
{
    match (kind, object) {
        (Kind::Uid, Posting::Uid(_)) => true,
        (Kind::Int, Posting::Val(Value::Int(_))) => true,
        (Kind::Text, Posting::Val(Value::Text(_))) => true,
        (Kind::Default, Posting::Val(Value::Text(_))) => true,
        (Kind::Bool, Posting::Val(Value::Bool(_))) => true,
        (Kind::Time, Posting::Val(Value::Time(_))) => true,
        _ => false,
    }
}

/// Whether a triple's predicate is declared, and its object of that predicate's kind. It takes no memory.
pub fn fits(schema: &Schema, triple: &Triple) -> bool
    ensures { result ≡ fits schema.now triple.now }
{
    match schema.lookup(triple.p.as_str()) {
        Some(definition) => is_of_kind(definition.kind, &triple.o),
        None => false,
    }
}
