// What holds of every run of the machine.
ghost use Rattle.dg_node.specs.Complete.{IsComplete};
ghost use Rattle.dg_node.specs.State.{HistoriesAgree};
ghost use Rattle.dg_node.specs.Steps.{IsDetermined};
ghost use Rattle.dg_node.specs.Touching.{LaterBegan, NoneUnseen};

/// The replies to a list of requests, and the state behind them, are one alone where no reply says that memory was
/// wanting.
pub fn runs_are_determined()
    ensures { IsDetermined }
{}

/// An input that is the frames of some requests and no more, within the limit, is answered to its end with the replies
/// to these requests, unless a read or a write fails or memory is wanting.
pub fn frames_are_answered()
    ensures { IsComplete }
{}

/// In every legal history the commits wrote what they asked for: by their changes the machine has the keys that were
/// committed, and at each timestamp the same graph.
pub fn histories_agree()
    ensures { HistoriesAgree }
{}

/// Of two commits that touch one value of a predicate with `@upsert` and an index, the later one's transaction began at
/// or after the earlier commit.
pub fn later_began()
    ensures { LaterBegan }
{}

/// So two transactions that both found no node with such a value can't both commit one, unless a commit between them
/// took the first one's away.
pub fn none_unseen()
    ensures { NoneUnseen }
{}
