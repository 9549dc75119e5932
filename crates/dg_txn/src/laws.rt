// What holds of pins and of own changes.
ghost use Rattle.dg_txn.specs.Laws.{PinsRead, PinsHaveOne, OwnRead, BegunPinsHold, PresentPinsHold};

/// Pins have one graph, and what is read from them is what keys list there. Own changes are read as what lists gain and
/// lose by them.
pub fn pinned_graphs()
    ensures read { PinsRead }
    ensures one { PinsHaveOne }
    ensures own { OwnRead }
{}

/// The pins of groups that are up to date with a history hold the present graph, and that at a start that is drawn then.
pub fn current_pins()
    ensures present { PresentPinsHold }
    ensures begun { BegunPinsHold }
{}
