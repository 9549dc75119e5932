// What holds of the statements for which those of an upsert block stand.
ghost use Rattle.dg_upsert.specs.Laws.{HaveNoVariable, StandAsTheyAre};

/// No variable stands in the statements for which mutations stand, and statements in which none stands stand for themselves.
pub fn given_statements()
    ensures plain { HaveNoVariable }
    ensures same { StandAsTheyAre }
{}
