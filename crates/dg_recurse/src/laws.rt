// What holds of unfolding.
ghost use Rattle.dg_recurse.specs.Laws.{NamesDontMatter};

/// It doesn't matter by which numbers nodes go, so that it can be by their places in what was fetched: the same is shown.
pub fn names_dont_matter()
    ensures { NamesDontMatter }
{}
