// The brackets round a part of a filter or of a condition, and the words before it.
ghost use Rattle.std.specs.Prelude.{◌≡◌, List, ◌++◌, OnOk, if◌then◌else◌};
ghost use Rattle.dg_text.specs.Written.{Word, written};
ghost use Rattle.dg_print.specs.Printed as spec;
ghost use Rattle.dg_print.specs.Printing.{words_in};

use dg_values::{Mem, Str};

/// What a filter or a condition stands in.
#[derive(Clone, Copy, Debug)]
pub enum Within {
    /// Brackets: an `or` may stand in them.
    Brackets,
    /// An `or`: an `and` may stand in it.
    Or,
    /// An `and`: neither may stand in it.
    And,
}

/// Adds so many `not`.
#[tactic(auto, using(crate::proofs::FiltersWritten::nots_more))]
pub fn push_nots(out: &mut Str, nots: usize) -> Mem<()>
    ensures { OnOk result (out.new ≡ out.old ++ written (spec.nots nots)) }
{
    for _not in 0..nots {
        out.push_str("not ")?;
    }
    Ok(())
}

/// Whether an `or` after so many `not` stands without brackets.
pub fn or_is_bare(within: Within, nots: usize) -> bool
    ensures { (ws : List Word) → words_in within (spec.shown_or nots ws) ≡ (if result then ws else spec.nots nots ++ spec.in_round ws) }
{
    match within {
        Within::Brackets => nots == 0,
        Within::Or => false,
        Within::And => false,
    }
}

/// Whether an `and` after so many `not` stands without brackets.
pub fn and_is_bare(within: Within, nots: usize) -> bool
    ensures { (ws : List Word) → words_in within (spec.shown_and nots ws) ≡ (if result then ws else spec.nots nots ++ spec.in_round ws) }
{
    match within {
        Within::Brackets => nots == 0,
        Within::Or => nots == 0,
        Within::And => false,
    }
}
