// What was committed and altered, and the plain graph that it leads to at a timestamp.
ghost use Rattle.std.specs.Prelude.{◌≡◌, IfOk, OnOk, fold};
ghost use Rattle.dg_graph.specs.Graphs.{after_changes};
ghost use Rattle.dg_zero.specs.Worlds.{empty_world};
ghost use Rattle.table_zero.specs.Steps.{world_in, world_by};

use dg_graph::{Change, Graph, Plain};
use dg_schema::Schema;
use dg_values::{List, Mem, OutOfMemory};
use std::alloc::Global;

// A commit with its changes as they were asked for, or an alter with its definitions, at its timestamp.
#[derive(Drop)]
pub(crate) enum Step {
    Committed { ts: u64, changes: List<Change> },
    Altered { ts: u64, newer: Schema },
}

// Makes changes in turn.
fn apply_all(graph: &mut Graph, schema: &Schema, changes: &[Change]) -> Mem<()>
    ensures { OnOk result (graph.new ≡ after_changes schema.now graph.old changes.now) }
{
    for change in changes {
        graph.apply(schema, change)?;
    }
    Ok(())
}

impl Step {
    // Goes on by the step, where it is at or below a timestamp.
    fn apply(&self, plain: &mut Plain, at: u64) -> Mem<()>
        ensures { OnOk result (world_in plain.new ≡ world_by at (world_in plain.old) self.now) }
    {
        match self {
            Step::Committed { ts, changes } if *ts <= at => {
                apply_all(&mut plain.graph, &plain.schema, changes.as_slice())
            }
            Step::Altered { ts, newer } if *ts <= at => plain.schema.join(newer),
            _ => Ok(()),
        }
    }
}

// The schema and the graph at a timestamp.
pub(crate) fn plain_at(alloc: Global, steps: &[Step], at: u64) -> Mem<Plain>
    ensures { IfOk result (λ plain. world_in plain ≡ fold (world_by at) empty_world steps.now) }
{
    let schema = Schema::new(alloc);
    let graph = Graph::new(alloc)?;
    let mut plain = Plain { schema, graph };
    for step in steps {
        step.apply(&mut plain, at)?;
    }
    Ok(plain)
}
