// Whether changes fit a schema.
ghost use Rattle.std.specs.Prelude.{◌≡◌, ◌↔◌, IsTrue};
ghost use Rattle.dg_graph.specs.Graphs.{fits};
ghost use Rattle.dg_graph.specs.Changes.{changed};
ghost use Rattle.dg_edges.specs.Deltas.{AreFitting};

use dg_graph::{Change, fits};
use dg_schema::Schema;

// Whether the triple of a change fits.
fn change_fits(schema: &Schema, change: &Change) -> bool
    ensures { result ≡ fits schema.now (changed change.now) }
{
    fits(schema, change.triple())
}

/// Whether each change is of a triple of a declared predicate, with an object of that predicate's kind. It takes no
/// memory.
pub fn are_fitting(schema: &Schema, changes: &[Change]) -> bool
    ensures { IsTrue result ↔ AreFitting schema.now changes.now }
{
    changes.iter().all(|change| change_fits(schema, change))
}
