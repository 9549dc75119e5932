// That the depth to which brackets are read is never met.
ghost use Rattle.dg_print.specs.Depth.{FiltersDepth, ConditionsDepth, FieldsDepth, QueriesDepth, UpsertsDepth};

/// A text whose query or upsert block is read to any greater depth of brackets gives the same. The readers of `dg_parse`
/// go to 33, and a text has at most 32 brackets open, so no text is refused for the depth of its reader.
pub fn depth_is_never_met()
    ensures filters { FiltersDepth }
    ensures conditions { ConditionsDepth }
    ensures fields { FieldsDepth }
    ensures queries { QueriesDepth }
    ensures upserts { UpsertsDepth }
{}
