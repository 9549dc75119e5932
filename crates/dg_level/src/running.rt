// The answer of a query, written block by block.
ghost use Rattle.std.specs.Prelude.{◌≡◌, ℕ, ◌≤◌, ◌<◌, ◌++◌, false, List, None, Some, length, map, flat_map, string_bytes, IfOk, OnOk, IsErrOf};
ghost use Rattle.dg_schema.specs.declared.definition.PredDef.{PredDef};
ghost use Rattle.dg_graph.specs.Graphs.{IsLawful};
ghost use Rattle.dg_check.specs.Outcomes.{IsPlanOf};
ghost use Rattle.dg_check.specs.Parts.{IsBlockOf, AreBlocksOf};
ghost use Rattle.dg_check.specs.Variables.{Definition};
ghost use Rattle.dg_funcs.specs.Laws.{AreOfKind};
ghost use Rattle.dg_tree.specs.declared.tree.Tree.TheVariants as trees;
ghost use Rattle.dg_tree.specs.Texts.{field_text, answer_text};
ghost use Rattle.dg_level.specs.Aggregates.{aggregates_shown, sums_beyond};
ghost use Rattle.dg_level.specs.Blocks.{is_hidden, nodes_shown, block_tree, block_shown, blocks_shown};
ghost use Rattle.dg_level.specs.Left.{AreLeftAt};
ghost use Rattle.dg_level.specs.Meaning.{defined_in, variables_of, first_name, overflow_of, answer_of};
ghost use Rattle.dg_level.specs.Parts.{parts_text, has_parts};
ghost use Rattle.dg_level.specs.Shown.{under};

use crate::aggregates::{push_aggregates, sum_beyond};
use crate::arrays::comma_behind;
use crate::blocks::{array_shown, left_of, nodes_of};
use crate::folds::Folds;
use crate::left::Left;
use crate::variables::variables_in_order;
use crate::{RunFault, any_order_serves};
use dg_check::{Parts, Plan, Vars};
use dg_funcs::meanings;
use dg_graph::Snapshot;
use dg_parse::QBlock;
use dg_tree::{AnswerText, TreeFault};
use dg_values::{Mem, OutOfMemory, Steps};
use std::alloc::Global;
use std::sync::ledger::Ledger;

// The variables of a plan.
fn variables_of<S: Snapshot, L: Ledger>(
    alloc: Global,
    snap: &S,
    plan: &Plan,
    reads: &mut Steps<L>,
) -> Mem<Vars>
    requires plan { IsPlanOf (S.declared snap.now) plan.now.query plan.now }
    ensures known { IsLawful (S.declared snap.now) (S.graph snap.now) → IfOk result (λ vars. vars.variables ≡ variables_of (S.declared snap.now) (S.graph snap.now) plan.now.query) }
    ensures kinds { IsLawful (S.declared snap.now) (S.graph snap.now) → IfOk result (λ vars. AreOfKind (defined_in (S.declared snap.now) plan.now.query) vars.variables) }
{
    meanings();
    any_order_serves();
    let blocks = plan.query.blocks.as_slice();
    let kept = plan.parts.as_slice();
    let order = plan.order.as_slice();
    let count = plan.vars.len();
    variables_in_order(alloc, snap, blocks, kept, order, count, reads)
}

// Refuses a plan with a sum that is no number of 64 bits.
fn test_sums(
    alloc: Global,
    blocks: &[QBlock],
    kept: &[Parts],
    folds: &Folds,
) -> Result<(), RunFault>
    ensures ok { (schema : List PredDef) (ds : List Definition) → AreBlocksOf schema ds blocks.now kept.now
        → IfOk result (λ _. first_name (sums_beyond ds folds.now blocks.now) ≡ None) }
    ensures overflow { (schema : List PredDef) (ds : List Definition) → AreBlocksOf schema ds blocks.now kept.now
        → (x : List ℕ) → IsErrOf result (RunFault.SumOverflow x) → first_name (sums_beyond ds folds.now blocks.now) ≡ Some x }
    ensures fits { IsErrOf result RunFault.TooLarge → ⊥ }
{
    match sum_beyond(blocks, kept, folds) {
        None => Ok(()),
        Some(name) => {
            let name = name.copy(alloc)?;
            Err(RunFault::SumOverflow { name })
        }
    }
}

// A block of the name `var`, which isn't shown.
fn is_hidden(block: &QBlock) -> bool
    ensures { result ≡ is_hidden block.now }
{
    block.name.as_str() == "var"
}

// Adds what the nodes of a list show, under the name of a block.
fn push_named<S: Snapshot, L: Ledger>(
    alloc: Global,
    snap: &S,
    out: &mut AnswerText,
    block: &QBlock,
    kept: &Parts,
    vars: &Vars,
    list: &[u64],
    left: dg_values::List<Left>,
    reads: &mut Steps<L>,
) -> Result<(), TreeFault>
    ensures ok { (ds : List Definition) → IsLawful (S.declared snap.now) (S.graph snap.now) → AreOfKind ds vars.now.variables → IsBlockOf (S.declared snap.now) ds block.now kept.now
        → AreLeftAt (S.declared snap.now) (S.graph snap.now) vars.now.variables block.now kept.now list.now left → OnOk result (out.new ≡ out.old ++ field_text (nodes_shown (S.declared snap.now) (S.graph snap.now) ds vars.now.variables block.now list.now)) }
    ensures too_large { (ds : List Definition) → IsLawful (S.declared snap.now) (S.graph snap.now) → AreOfKind ds vars.now.variables → IsBlockOf (S.declared snap.now) ds block.now kept.now
        → AreLeftAt (S.declared snap.now) (S.graph snap.now) vars.now.variables block.now kept.now list.now left → IsErrOf result TreeFault.TooLarge → 16777216 < length (out.old ++ field_text (nodes_shown (S.declared snap.now) (S.graph snap.now) ds vars.now.variables block.now list.now)) }
{
    let array = array_shown(alloc, snap, block, kept, vars, list, left, reads)?;
    out.key(block.name.as_str())?;
    out.mark(array.begun_text())
}

// Adds what a block without a function shows, under its name.
fn push_values(
    alloc: Global,
    out: &mut AnswerText,
    block: &QBlock,
    kept: &Parts,
    folds: &Folds,
) -> Result<(), TreeFault>
    ensures ok { (schema : List PredDef) (ds : List Definition) → IsBlockOf schema ds block.now kept.now
        → OnOk result (out.new ≡ out.old ++ field_text (under block.now.name (trees.Array (aggregates_shown ds folds.now block.now.fields)))) }
    ensures too_large { (schema : List PredDef) (ds : List Definition) → IsBlockOf schema ds block.now kept.now
        → IsErrOf result TreeFault.TooLarge → 16777216 < length (out.old ++ field_text (under block.now.name (trees.Array (aggregates_shown ds folds.now block.now.fields)))) }
{
    out.key(block.name.as_str())?;
    let fields = block.fields.as_slice();
    push_aggregates(alloc, out, fields, kept.fields.as_slice(), folds)
}

// Adds what a block shows, under its name.
fn push_shown<S: Snapshot, L: Ledger>(
    alloc: Global,
    snap: &S,
    out: &mut AnswerText,
    block: &QBlock,
    kept: &Parts,
    vars: &Vars,
    folds: &Folds,
    reads: &mut Steps<L>,
) -> Result<(), TreeFault>
    requires folds { folds.now ≡ vars.now.variables }
    ensures ok { (ds : List Definition) → IsLawful (S.declared snap.now) (S.graph snap.now) → AreOfKind ds vars.now.variables → IsBlockOf (S.declared snap.now) ds block.now kept.now
        → OnOk result (out.new ≡ out.old ++ field_text (block_tree (S.declared snap.now) (S.graph snap.now) ds vars.now.variables block.now)) }
    ensures too_large { (ds : List Definition) → IsLawful (S.declared snap.now) (S.graph snap.now) → AreOfKind ds vars.now.variables → IsBlockOf (S.declared snap.now) ds block.now kept.now
        → IsErrOf result TreeFault.TooLarge → 16777216 < length (out.old ++ field_text (block_tree (S.declared snap.now) (S.graph snap.now) ds vars.now.variables block.now)) }
{
    if block.func.is_none() {
        return push_values(alloc, out, block, kept, folds);
    }
    let list = nodes_of(alloc, snap, block, kept, vars, reads)?;
    let left = left_of(alloc, snap, block, kept, vars, list, reads)?;
    let inside = left.inside;
    let list = left.list.as_slice();
    push_named(alloc, snap, out, block, kept, vars, list, inside, reads)
}

// Adds what a block shows, unless it is hidden. It answers whether a part stands there then.
fn push_block<S: Snapshot, L: Ledger>(
    alloc: Global,
    snap: &S,
    out: &mut AnswerText,
    wrote: bool,
    block: &QBlock,
    kept: &Parts,
    vars: &Vars,
    folds: &Folds,
    reads: &mut Steps<L>,
) -> Result<bool, TreeFault>
    requires folds { folds.now ≡ vars.now.variables }
    ensures ok { (ds : List Definition) → IsLawful (S.declared snap.now) (S.graph snap.now) → AreOfKind ds vars.now.variables → IsBlockOf (S.declared snap.now) ds block.now kept.now
        → OnOk result (out.new ≡ out.old ++ parts_text wrote (map field_text (block_shown (S.declared snap.now) (S.graph snap.now) ds vars.now.variables block.now))) }
    ensures wrote { (ds : List Definition) → IfOk result (λ w. w ≡ has_parts wrote (map field_text (block_shown (S.declared snap.now) (S.graph snap.now) ds vars.now.variables block.now))) }
    ensures too_large { (ds : List Definition) → IsLawful (S.declared snap.now) (S.graph snap.now) → AreOfKind ds vars.now.variables → IsBlockOf (S.declared snap.now) ds block.now kept.now
        → IsErrOf result TreeFault.TooLarge → 16777216 < length (out.old ++ parts_text wrote (map field_text (block_shown (S.declared snap.now) (S.graph snap.now) ds vars.now.variables block.now))) }
{
    if is_hidden(block) {
        return Ok(wrote);
    }
    out.mark(comma_behind(wrote))?;
    push_shown(alloc, snap, out, block, kept, vars, folds, reads)?;
    Ok(true)
}

// Adds what blocks show.
fn push_blocks<S: Snapshot, L: Ledger>(
    alloc: Global,
    snap: &S,
    out: &mut AnswerText,
    blocks: &[QBlock],
    kept: &[Parts],
    vars: &Vars,
    folds: &Folds,
    reads: &mut Steps<L>,
) -> Result<(), TreeFault>
    requires folds { folds.now ≡ vars.now.variables }
    requires alike { length blocks.now ≡ length kept.now }
    ensures ok { (ds : List Definition) → IsLawful (S.declared snap.now) (S.graph snap.now) → AreOfKind ds vars.now.variables → AreBlocksOf (S.declared snap.now) ds blocks.now kept.now
        → OnOk result (out.new ≡ out.old ++ parts_text false (map field_text (blocks_shown (S.declared snap.now) (S.graph snap.now) ds vars.now.variables blocks.now))) }
    ensures too_large { (ds : List Definition) → IsLawful (S.declared snap.now) (S.graph snap.now) → AreOfKind ds vars.now.variables → AreBlocksOf (S.declared snap.now) ds blocks.now kept.now
        → IsErrOf result TreeFault.TooLarge → 16777216 < length (out.old ++ parts_text false (map field_text (blocks_shown (S.declared snap.now) (S.graph snap.now) ds vars.now.variables blocks.now))) }
{
    let mut wrote = false;
    for (at, block) in blocks.iter().enumerate() {
        wrote = push_block(
            alloc, snap, out, wrote, block, &kept[at], vars, folds, reads,
        )?;
    }
    Ok(())
}

// The answer of blocks, as text.
fn answer_of_blocks<S: Snapshot, L: Ledger>(
    alloc: Global,
    snap: &S,
    blocks: &[QBlock],
    kept: &[Parts],
    vars: &Vars,
    folds: &Folds,
    reads: &mut Steps<L>,
) -> Result<String, TreeFault>
    requires folds { folds.now ≡ vars.now.variables }
    requires alike { length blocks.now ≡ length kept.now }
    ensures text { (ds : List Definition) → IsLawful (S.declared snap.now) (S.graph snap.now) → AreOfKind ds vars.now.variables → AreBlocksOf (S.declared snap.now) ds blocks.now kept.now
        → IfOk result (λ text. string_bytes text ≡ answer_text (blocks_shown (S.declared snap.now) (S.graph snap.now) ds vars.now.variables blocks.now)) }
    ensures within { IfOk result (λ text. length (string_bytes text) ≤ 16777216) }
    ensures too_large { (ds : List Definition) → IsLawful (S.declared snap.now) (S.graph snap.now) → AreOfKind ds vars.now.variables → AreBlocksOf (S.declared snap.now) ds blocks.now kept.now
        → IsErrOf result TreeFault.TooLarge → 16777216 < length (answer_text (blocks_shown (S.declared snap.now) (S.graph snap.now) ds vars.now.variables blocks.now)) }
{
    let mut out = AnswerText::new(alloc)?;
    out.mark("{\"data\":{")?;
    push_blocks(alloc, snap, &mut out, blocks, kept, vars, folds, reads)?;
    out.mark("}}")?;
    Ok(out.into_string())
}

/// What the variables of a query stand for, where nothing of it is shown, as of the query of an upsert block. They are found block by
/// block in the order of the plan.
///
/// # Errors
///
/// `SumOverflow` names the variable of the first sum of the text that is no number of 64 bits. `TooLarge` never comes. `OutOfMemory`
/// is want of memory.
pub fn run_variables<S: Snapshot, L: Ledger>(
    alloc: Global,
    snap: &S,
    plan: &Plan,
    reads: &mut Steps<L>,
) -> Result<Vars, RunFault>
    requires plan { IsPlanOf (S.declared snap.now) plan.now.query plan.now }
    ensures known { IsLawful (S.declared snap.now) (S.graph snap.now) → IfOk result (λ vars. (overflow_of (S.declared snap.now) (S.graph snap.now) plan.now.query ≡ None) × (vars.variables ≡ variables_of (S.declared snap.now) (S.graph snap.now) plan.now.query)) }
    ensures kinds { IsLawful (S.declared snap.now) (S.graph snap.now) → IfOk result (λ vars. AreOfKind (defined_in (S.declared snap.now) plan.now.query) vars.variables) }
    ensures overflow { IsLawful (S.declared snap.now) (S.graph snap.now) → (x : List ℕ) → IsErrOf result (RunFault.SumOverflow x) → overflow_of (S.declared snap.now) (S.graph snap.now) plan.now.query ≡ Some x }
    ensures fits { IsErrOf result RunFault.TooLarge → ⊥ }
{
    let vars = variables_of(alloc, snap, plan, reads)?;
    test_sums(
        alloc,
        plan.query.blocks.as_slice(),
        plan.parts.as_slice(),
        &Folds::of(alloc, &vars)?,
    )?;
    Ok(vars)
}

/// The answer of a query over a graph, as text: each block under its name in the order of the text, but those of the name
/// `var`. A block shows an array: for each of its fields `count(uid)` an object with the number of its nodes, and then those
/// of its nodes that show something, in their order; or flat objects where it is normalized; or what its nodes unfold to where it
/// has a recursion. A block without a function shows an object for each of its aggregates whose variable has a value.
///
/// First all variables are found, block by block in the order of the plan, and no text is made of them. Then block by block of
/// the text the list is found: the root's nodes, those of them that pass each filter, their order, for which a value
/// is looked up once for each node, the page, and those of it that a cascade leaves. Then what each node shows is made once, level by level, and the array is
/// put together.
///
/// # Errors
///
/// `SumOverflow` names the variable of the first sum of the text, shown or not, that is no number of 64 bits. `TooLarge` comes
/// only where there is no such sum and the text has more than 16,777,216 bytes, and as soon as what some nodes show together would
/// pass them: each of them stands in the answer. `OutOfMemory` is want of memory.
pub fn run_plan<S: Snapshot, L: Ledger>(
    alloc: Global,
    snap: &S,
    plan: &Plan,
    reads: &mut Steps<L>,
) -> Result<String, RunFault>
    requires plan { IsPlanOf (S.declared snap.now) plan.now.query plan.now }
    ensures text { IsLawful (S.declared snap.now) (S.graph snap.now) → IfOk result (λ text. (overflow_of (S.declared snap.now) (S.graph snap.now) plan.now.query ≡ None) × (string_bytes text ≡ answer_text (answer_of (S.declared snap.now) (S.graph snap.now) plan.now.query))) }
    ensures within { IfOk result (λ text. length (string_bytes text) ≤ 16777216) }
    ensures overflow { IsLawful (S.declared snap.now) (S.graph snap.now) → (x : List ℕ) → IsErrOf result (RunFault.SumOverflow x) → overflow_of (S.declared snap.now) (S.graph snap.now) plan.now.query ≡ Some x }
    ensures too_large { IsLawful (S.declared snap.now) (S.graph snap.now) → IsErrOf result RunFault.TooLarge → (overflow_of (S.declared snap.now) (S.graph snap.now) plan.now.query ≡ None) × 16777216 < length (answer_text (answer_of (S.declared snap.now) (S.graph snap.now) plan.now.query)) }
{
    let vars = run_variables(alloc, snap, plan, reads)?;
    let blocks = plan.query.blocks.as_slice();
    let kept = plan.parts.as_slice();
    let folds = Folds::of(alloc, &vars)?;
    Ok(answer_of_blocks(alloc, snap, blocks, kept, &vars, &folds, reads)?)
}
