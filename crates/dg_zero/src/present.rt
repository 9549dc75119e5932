// What the history says at present, for a reader who appends nothing.
ghost use Rattle.std.specs.Prelude.{◌≡◌, [], IfSome, IfNone};
ghost use Rattle.std.specs.Arc.{arc_value};
ghost use Rattle.dg_zero.specs.Counters.{active, last};
ghost use Rattle.dg_zero.specs.States.{IsLeastStart, owners};
ghost use Rattle.dg_zero.specs.Worlds.{schema};

use crate::{Owners, ZeroState};
use dg_schema::Schema;
use std::sync::Arc;

impl ZeroState {
    /// The present schema. It takes no memory.
    pub fn schema(&self) -> &Arc<Schema>
        ensures { arc_value result.now ≡ schema self.now.history }
    {
        &self.schema
    }

    /// Which group owns each tablet at present. It takes no memory.
    pub fn owners(&self) -> &Arc<Owners>
        ensures { arc_value result.now ≡ owners self.now.history }
    {
        &self.owners
    }

    /// The last timestamp that was handed out, and 0 before the first. It takes no memory.
    pub fn last(&self) -> u64
        ensures { result ≡ last self.now.history }
    {
        self.oracle.next().saturating_sub(1)
    }

    /// The least start that is active; none exactly where no transaction is. It takes no memory.
    pub fn first_active(&self) -> Option<u64>
        ensures found { IfSome result (IsLeastStart self.now.history) }
        ensures none { IfNone result (active self.now.history ≡ []) }
    {
        self.oracle.first_active()
    }
}
