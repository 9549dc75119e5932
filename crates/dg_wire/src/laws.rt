// What holds of every input.
ghost use Rattle.std.specs.Prelude.{◌≡◌, ℕ, List};
ghost use Rattle.dg_wire.specs.Frames.{AreRequests};
ghost use Rattle.dg_wire.specs.Generator.{generated};
ghost use Rattle.dg_wire.specs.Spelling.{Spells};

use crate::Request;

/// Bytes spell at most one list of requests: where the frames of two lists begin the same bytes, and no
/// whole frame stands behind either, the lists are equal, and so is what stands behind.
///
/// It does nothing: its contract is a law of the frames.
pub fn requests_are_unique()
    ensures { (bytes : List ℕ) (requests others : List Request) (rest more : List ℕ) → Spells bytes requests rest → Spells bytes others more → (requests ≡ others) × (rest ≡ more) }
{}

/// Each request of a generated script has a frame.
///
/// It does nothing: its contract is a law of the scripts.
pub fn generated_are_requests()
    ensures { (seed size : ℕ) → AreRequests (generated seed size) }
{}
