// What the directives of a list ask.
ghost use Rattle.std.specs.Prelude.{◌≡◌};
ghost use Rattle.std.specs.List.{list_any};
ghost use Rattle.dg_level.specs.Shown.{is_cascade, cascades};
ghost use Rattle.dg_level.specs.Blocks.{is_normalize};

use dg_parse::QDir;

// A directive that drops nodes.
fn is_cascade(dir: &QDir) -> bool
    ensures { result ≡ is_cascade dir.now }
{
    match dir {
        QDir::Cascade => true,
        QDir::Filter(_) | QDir::Normalize | QDir::Recurse(_) => false,
    }
}

// A directive that makes flat objects of nodes.
fn is_normalize(dir: &QDir) -> bool
    ensures { result ≡ is_normalize dir.now }
{
    match dir {
        QDir::Normalize => true,
        QDir::Filter(_) | QDir::Cascade | QDir::Recurse(_) => false,
    }
}

// Whether one of them drops nodes.
fn has_cascade(dirs: &[QDir]) -> bool
    ensures { result ≡ list_any is_cascade dirs.now }
{
    dirs.iter().any(is_cascade)
}

/// Whether nodes are dropped from a list that has these directives, or stands below one from which they are.
pub fn cascades(above: bool, dirs: &[QDir]) -> bool
    ensures { result ≡ cascades above dirs.now }
{
    above || has_cascade(dirs)
}

/// Whether the nodes of a list with these directives are shown as flat objects.
pub fn normalizes(dirs: &[QDir]) -> bool
    ensures { result ≡ list_any is_normalize dirs.now }
{
    dirs.iter().any(is_normalize)
}
