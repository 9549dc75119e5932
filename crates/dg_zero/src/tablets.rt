// Where a tablet is.

use dg_values::Str;
use std::fmt;

/// How far the move of a tablet is.
#[derive(Clone, Copy, Debug, PartialEq, Eq)]
pub enum Phase {
    /// It isn't moving.
    Idle,
    /// The move was started.
    Started,
    /// The new group has a copy.
    Copied,
    /// Commits of the tablet are refused until the move ends.
    Held,
}

/// It prints `none`, `started`, `copied` or `held`.
impl fmt::Display for Phase {
    ghost use Rattle.std.specs.Prelude.{Some};
    ghost use Rattle.dg_zero.specs.Places.{phase_text};

    ghost output = { λ p. Some (phase_text p) };

    fn fmt<W: fmt::Write>(&self, f: &mut fmt::Formatter<W>) -> fmt::Result {
        f.write_str(match self {
            Phase::Idle => "none",
            Phase::Started => "started",
            Phase::Copied => "copied",
            Phase::Held => "held",
        })
    }
}

/// A tablet: the predicate, the group that owns it, and the phase and the new group of its move. One that isn't moving
/// has its owner there.
#[derive(Debug, Drop)]
pub struct Place {
    pub pred: Str,
    pub group: u32,
    pub phase: Phase,
    pub to: u32,
}
