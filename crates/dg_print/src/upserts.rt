// Mutations and whole upsert blocks.
ghost use Rattle.std.specs.Prelude.{◌≡◌, ◌++◌, flat_map, IfOk, OnOk, string_bytes};
ghost use Rattle.dg_text.specs.Written.{written};
ghost use Rattle.dg_print.specs.PrintedUpsert as spec;

use crate::blocks::push_query;
use crate::brackets::Within;
use crate::conditions::push_condition;
use dg_nquad::printing::groups_text;
use dg_parse::{UCond, UMut, Upsert};
use dg_values::{Mem, OutOfMemory, Str};
use std::alloc::Global;

// Adds `@if` and its condition, where there is one.
#[tactic(auto, using(crate::proofs::UpsertsWritten::if_written))]
fn push_if(alloc: Global, out: &mut Str, condition: &Option<UCond>) -> Mem<()>
    ensures { OnOk result (out.new ≡ out.old ++ written (spec.if_words condition.now)) }
{
    match condition {
        None => Ok(()),
        Some(condition) => {
            out.push_str("@if ( ")?;
            push_condition(alloc, out, Within::Brackets, condition)?;
            out.push_str(") ")
        }
    }
}

// Adds a mutation.
#[tactic(auto, using(crate::proofs::UpsertsWritten::mut_written))]
fn push_mut(alloc: Global, out: &mut Str, mutation: &UMut) -> Mem<()>
    ensures { OnOk result (out.new ≡ out.old ++ written (spec.mut_words mutation.now)) }
{
    out.push_str("mutation ")?;
    push_if(alloc, out, &mutation.cond)?;
    let groups = groups_text(alloc, mutation.mutation.statements.as_slice())?;
    out.push_str(groups.as_str())
}

// Adds mutations.
#[tactic(auto, using(crate::proofs::WordsWritten::listed_more))]
fn push_muts(alloc: Global, out: &mut Str, muts: &[UMut]) -> Mem<()>
    ensures { OnOk result (out.new ≡ out.old ++ written (flat_map spec.mut_words muts.now)) }
{
    for mutation in muts {
        push_mut(alloc, out, mutation)?;
    }
    Ok(())
}

/// The upsert block as a text in its printed form: its words with a blank behind each, its query as
/// [`query_text`](crate::query_text) prints it, no more brackets in a condition than it needs, and each
/// statement in a group of its own. For an upsert block that a text says, this text says the same block, as
/// [`upserts_read_back`](crate::upserts_read_back) says. Of the printed text of one that no text says, nothing more is
/// known than the form. The text may be longer than `parse_upsert` of `dg_parse` takes.
#[tactic(auto, using(crate::proofs::UpsertsWritten::upsert_written))]
pub fn upsert_text(alloc: Global, upsert: &Upsert) -> Mem<String>
    ensures { IfOk result (λ text. string_bytes text ≡ spec.upsert_text upsert.now) }
{
    let mut out = Str::from_str(alloc, "upsert { query ")?;
    push_query(alloc, &mut out, &upsert.query)?;
    push_muts(alloc, &mut out, upsert.muts.as_slice())?;
    out.push_str("} ")?;
    Ok(out.into_string())
}
