// What holds of functions and filters.
ghost use Rattle.dg_funcs.specs.Laws.{FuncsMeanTheirTexts, FiltersMeanTheirTexts, RootsMeanTheirTexts};

/// A function of a plan holds where that of the text does, a filter passes where that of the text does, and a function gives
/// the same nodes at a root: over each lawful graph, where variables have values of their kinds.
pub fn meanings()
    ensures funcs { FuncsMeanTheirTexts }
    ensures filters { FiltersMeanTheirTexts }
    ensures roots { RootsMeanTheirTexts }
{}
