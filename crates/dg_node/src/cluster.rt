// What a session asks of a cluster.
use dg_group::Pinned;
use dg_schema::Schema;
use dg_values::{OutOfMemory, Str};
use dg_zero::{Begun, CommitFault, Offer, Phase, Slip, ZeroFault};
use std::alloc::Global;

/// Why a cluster refuses a call.
#[derive(Debug, Drop)]
pub enum ClusterFault {
    /// There is not enough memory.
    OutOfMemory,
    /// The predicate isn't declared.
    NoPredicate { pred: Str },
    /// So many nodes aren't left; `next` is the next one.
    UidsSpent { next: u64 },
    /// The tablet of this predicate is held.
    Moving { pred: Str },
    /// A transaction is active; `start` is the least such start.
    Pending { start: u64 },
    /// The predicate has a triple, and would change its kind, or whether it is a list.
    HasData { pred: Str },
    /// There is no such group.
    NoGroup { group: u32 },
    /// The group is the owner.
    SameGroup { group: u32 },
    /// The tablet of this predicate is moving.
    AlreadyMoving { pred: Str },
    /// The tablet of this predicate is in another phase.
    NotMoving { pred: Str, phase: Phase },
    /// The next timestamp would be 2^62, which is none; `next` is the next one.
    TimestampsSpent { next: u64 },
    /// The group keeps an old copy of this predicate, which may be read up to `until`.
    OldCopy { pred: Str, group: u32, until: u64 },
}

/// Want of memory is a fault of its own.
impl From<OutOfMemory> for ClusterFault {
    ghost use Rattle.std.specs.Prelude.{◌≡◌};
    ghost use Rattle.dg_node.specs.declared.cluster.ClusterFault.TheVariants as faults;

    ghost from_gives = { λ memory cluster. cluster ≡ faults.OutOfMemory };

    fn from(_: OutOfMemory) -> ClusterFault {
        ClusterFault::OutOfMemory
    }
}

impl ClusterFault {
    ghost use Rattle.std.specs.Prelude.{◌≡◌, List, ℕ};
    ghost use Rattle.dg_node.specs.Clusters.{IsWhole, cluster_fault};

    /// A refusal of the state that coordinates all, for a call about a predicate: where it leaves out the predicate, which
    /// the caller handed in, it gets it back.
    pub fn about(pred: Str, fault: ZeroFault) -> ClusterFault
        ensures { result ≡ cluster_fault pred fault }
    {
        match fault {
            ZeroFault::NoPredicate => ClusterFault::NoPredicate { pred },
            ZeroFault::AlreadyMoving => ClusterFault::AlreadyMoving { pred },
            ZeroFault::NotMoving { phase } => ClusterFault::NotMoving { pred, phase },
            ZeroFault::OldCopy { group, until } => ClusterFault::OldCopy { pred, group, until },
            whole => ClusterFault::whole(whole),
        }
    }

    /// The same for a call that hands in no predicate, and so isn't refused by a fault that leaves one out.
    pub fn whole(fault: ZeroFault) -> ClusterFault
        requires { IsWhole fault }
        ensures { (pred : List ℕ) → result ≡ cluster_fault pred fault }
    {
        match fault {
            ZeroFault::OutOfMemory => ClusterFault::OutOfMemory,
            ZeroFault::TimestampsSpent { next } => ClusterFault::TimestampsSpent { next },
            ZeroFault::UidsSpent { next } => ClusterFault::UidsSpent { next },
            ZeroFault::Pending { start } => ClusterFault::Pending { start },
            ZeroFault::Moving { pred } => ClusterFault::Moving { pred },
            ZeroFault::NoGroup { group } => ClusterFault::NoGroup { group },
            ZeroFault::SameGroup { group } => ClusterFault::SameGroup { group },
            ZeroFault::NoPredicate
            | ZeroFault::AlreadyMoving
            | ZeroFault::NotMoving { .. }
            | ZeroFault::OldCopy { .. } => unreachable!(),
        }
    }
}

/// One caller's view of the state that coordinates all, with its groups. Contracts see the number of groups and the history
/// as the caller has seen it, and a test of authors: those that the caller takes, by whom no one else appends.
///
/// Each call but `declared` and `history_is_legal` appends one entry of its slip's author. Before it there may come entries of others, which the
/// caller sees then; what the call answers is said over the history that it meets with them. A call that is refused
/// appends a look. After want of memory some groups may have come further.
pub trait Cluster {
    ghost use Rattle.std.specs.Prelude.{◌≡◌, ◌<◌, ℕ, Bool, true, []};
    ghost use Rattle.dg_oracle.specs.Commits.{is_active};
    ghost use Rattle.dg_schema.specs.Definitions.{is_declared};
    ghost use Rattle.dg_zero.specs.Counters.{next, active, starts_of, is_active_of};
    ghost use Rattle.dg_zero.specs.Legal.{IsLegal};
    ghost use Rattle.dg_zero.specs.Offers.{IsSound, IsMadeOf};
    ghost use Rattle.dg_zero.specs.States.{Zero};
    ghost use Rattle.dg_zero.specs.Worlds.{schema, schema_at, graph_at};
    ghost use Rattle.dg_node.specs.Clusters.{Meets, BeginsAt, LeasesAt, CommitsAt, EndsAt, AltersAt};

    /// The number of groups, and the history as the caller has seen it.
    ghost zero: { Self → Zero };

    /// The authors that the caller takes.
    ghost takes: { Self → ℕ → Bool };

    /// Brings each group up to date and pins it, and draws a start, whose transaction is active from then on. The pins hold
    /// the graph there.
    ///
    /// `TimestampsSpent` comes where no timestamp is left. After an error nothing is drawn.
    fn begin(&mut self, alloc: Global, slip: Slip) -> Result<(Begun, Vec<Pinned>), ClusterFault>
        requires own { takes self.old slip ≡ true }
        ensures same { takes self.new ≡ takes self.old }
        ensures begins { Meets (takes self.old) (zero self.old) (zero self.new) (BeginsAt slip result) }
        ensures legal { IsLegal (zero self.new).groups (zero self.new).history };

    /// Leases `count` nodes above `top` and above all that were leased, and answers the first. `UidsSpent` comes exactly
    /// where so many aren't left, with the next node. It takes no memory.
    fn lease(&mut self, slip: Slip, top: u64, count: u64) -> Result<u64, ClusterFault>
        requires own { takes self.old slip ≡ true }
        ensures same { takes self.new ≡ takes self.old }
        ensures leases { Meets (takes self.old) (zero self.old) (zero self.new) (LeasesAt slip top count result) }
        ensures legal { IsLegal (zero self.new).groups (zero self.new).history };

    /// Commits an offer at the next timestamp, or says why not. The groups apply it when they are next brought up to date.
    ///
    /// After `Conflict` and `Moving` the transaction has ended, and the refusal is appended. After `TimestampsSpent` and
    /// `OutOfMemory`, which hand the offer back, it is still active, and a look is appended.
    fn commit(&mut self, slip: Slip, offer: Offer) -> Result<u64, CommitFault>
        requires own { takes self.old slip ≡ true }
        requires active { is_active_of (active (zero self.old).history) offer.start slip ≡ true }
        requires sound { IsSound (schema_at (zero self.old).history offer.start) (graph_at (zero self.old).history offer.start []) offer.preds offer.keys offer.parts }
        requires made_of { IsMadeOf (schema_at (zero self.old).history offer.start) (graph_at (zero self.old).history offer.start []) offer.changes offer.keys offer.parts }
        ensures same { takes self.new ≡ takes self.old }
        ensures commits { Meets (takes self.old) (zero self.old) (zero self.new) (CommitsAt slip offer result) }
        ensures legal { IsLegal (zero self.new).groups (zero self.new).history };

    /// Ends a transaction, and says whether it was active; where it wasn't, a look is appended. It takes no memory.
    fn end(&mut self, slip: Slip, start: u64) -> bool
        requires own { takes self.old slip ≡ true }
        requires drawn { start < next (zero self.old).history }
        requires author { is_active (starts_of (active (zero self.old).history)) start ≡ true → is_active_of (active (zero self.old).history) start slip ≡ true }
        ensures same { takes self.new ≡ takes self.old }
        ensures ends { Meets (takes self.old) (zero self.old) (zero self.new) (EndsAt slip start result) }
        ensures legal { IsLegal (zero self.new).groups (zero self.new).history };

    /// Adds or replaces definitions at two new timestamps, and answers both. Lists of index, reverse and count are built or dropped
    /// with the definitions.
    ///
    /// `Pending` names the least active start where there is one; else `Moving` names the first predicate of the definitions
    /// whose tablet is held; else `HasData` names the first that has a triple and would change its kind, or whether it is a
    /// list; else `TimestampsSpent` comes where two timestamps aren't left. After an error nothing has changed.
    fn alter(
        &mut self,
        alloc: Global,
        slip: Slip,
        newer: &Schema,
    ) -> Result<(u64, u64), ClusterFault>
        requires own { takes self.old slip ≡ true }
        requires author { slip ≡ 0 }
        ensures same { takes self.new ≡ takes self.old }
        ensures alters { Meets (takes self.old) (zero self.old) (zero self.new) (AltersAt slip newer.now result) }
        ensures legal { IsLegal (zero self.new).groups (zero self.new).history };

    /// Whether the present schema declares a predicate, as far as caller 0 has seen, by whom all alters are made. It
    /// appends nothing and takes no memory.
    fn declared(&self, pred: &str) -> bool
        requires own { takes self.now 0 ≡ true }
        ensures { result ≡ is_declared (schema (zero self.now).history) pred.now };

    /// The history that the caller has seen is legal: so a cluster's type keeps it. It does nothing.
    fn history_is_legal(&self)
        ensures { IsLegal (zero self.now).groups (zero self.now).history };
}
