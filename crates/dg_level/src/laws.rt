// What holds of the variables of a query.
ghost use Rattle.dg_level.specs.Laws.{AnyOrderServes};

/// The variables of a query come out the same in whichever order its blocks run, as long as each runs once and behind those
/// that it depends on.
pub fn any_order_serves()
    ensures { AnyOrderServes }
{}
