// The statements of an upsert block, checked.
ghost use Rattle.dg_edges.specs.Resolving.{Resolves, IsAnswer};
ghost use Rattle.dg_upsert.specs.Meaning.{mutations_mean};

use crate::giving::mutations_mean;
use crate::known::Known;
use crate::names::names_of;
use dg_check::{Blocks, Vars};
use dg_edges::{EdgeFault, Resolved, resolve};
use dg_nquad::Mutation;
use dg_schema::Schema;
use dg_values::{List, Str};
use std::alloc::Global;

/// Checks the statements for which the mutations of an upsert block stand against a schema, in the order of the text. `names`
/// has the names of the variables at the places that they have in `vars`.
///
/// A mutation is taken where it has no condition or one that holds. A statement stands for every combination of the nodes of the
/// variables that it names, of which the subject varies slowest. A variable without nodes stands for one new node in a set, `uid(x)` by
/// name, and for none in a delete; `val(x)` stands for the text of the value of x at the subject, and the statement for none
/// where there is none.
///
/// # Errors
///
/// Those of [`resolve`](dg_edges::resolve), at the first of these statements that is refused; want of memory also where there
/// are too many of them.
pub fn apply_blocks(
    alloc: Global,
    schema: &Schema,
    blocks: &Blocks,
    names: &[Str],
    vars: &Vars,
) -> Result<Resolved, EdgeFault>
    ensures { IsAnswer (Resolves schema.now (mutations_mean names.now vars.now.variables blocks.now.mutations)) result }
{
    let known = Known {
        names: names_of(alloc, names)?,
        vars,
    };
    let statements = mutations_mean(alloc, &known, blocks.mutations.as_slice())?;
    let statements = List::from_vec(statements);
    resolve(alloc, schema, Mutation { statements })
}
