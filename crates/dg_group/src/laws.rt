// What keeps groups in step with histories.
ghost use Rattle.dg_group.specs.Laws.{NextCanBeApplied, NextKeepsInStep, NewIsInStep, EntriesKeepInStep, AltersKeepInStep, AllAppliedIsReadable};

/// The next record of a history can be applied, and keeps a group in step with it. A group that has nothing is in step with
/// the empty history.
pub fn records_of_histories()
    ensures can { NextCanBeApplied }
    ensures keeps { NextKeepsInStep }
    ensures new { NewIsInStep }
{}

/// What happens besides leaves groups in step, and a group that applied all can be read at the present.
pub fn entries_of_histories()
    ensures keep { EntriesKeepInStep }
    ensures keep_alters { AltersKeepInStep }
    ensures readable { AllAppliedIsReadable }
{}
