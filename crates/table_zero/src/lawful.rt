// Graphs that are lawful, as the making of offers asks.
ghost use Rattle.std.specs.Prelude.{IfOk};
ghost use Rattle.dg_edges.specs.Deltas.{AreFitting};
ghost use Rattle.dg_graph.specs.Graphs.{IsLawful};

use crate::fault::{Answer, Fault};
use crate::ground::Ground;
use dg_edges::are_fitting;
use dg_graph::{Change, Graph, Plain};
use dg_schema::Schema;
use dg_values::{Mem, OutOfMemory};
use std::alloc::Global;

// The graph that changes make of none.
fn made(alloc: Global, schema: &Schema, changes: &[Change]) -> Mem<Graph>
    requires { AreFitting schema.now changes.now }
    ensures { IfOk result (λ graph. IsLawful schema.now graph) }
{
    let mut graph = Graph::new(alloc)?;
    for change in changes {
        graph.apply(schema, change)?;
    }
    Ok(graph)
}

// The graph of the rows above, made anew, where all its changes and these fit the schema.
pub(crate) fn lawful_at(alloc: Global, ground: &Ground, changes: &[Change]) -> Answer<Plain>
    ensures fitting { IfOk result (λ at. AreFitting at.schema changes.now) }
    ensures lawful { IfOk result (λ at. IsLawful at.schema at.graph) }
{
    let schema = ground.at.schema.copy()?;
    let base = ground.base.as_slice();
    if !are_fitting(&schema, base) || !are_fitting(&schema, changes) {
        return Err(Fault::Unfit);
    }
    let graph = made(alloc, &schema, base)?;
    Ok(Plain { schema, graph })
}
