// The state is lent to its holder. This has a file of its own, since its clause names the row of `Held`.
ghost use Rattle.std.specs.Prelude.{◌≡◌};
ghost use Rattle.std.specs.Borrow.{Lends, sem};
ghost use Rattle.dg_turn.specs.contracts.held.Held.{the_row};
ghost use Rattle.dg_turn.specs.Values.{with_state};

use crate::held::Held;
use crate::logged::Logged;

impl<S: Logged> Held<S> {
    /// The state, to read and to write. What is written stands in the held state, and nothing else of it changes.
    pub fn state(&mut self) -> &mut S
        ensures* writes_back { sem 𝓛 (Lends (the_row S.row S.Entry.row S.Logged) S.row self.entry result (with_state self.old)) }
        ensures value { result.now ≡ self.old.state }
    {
        &mut self.state
    }
}
