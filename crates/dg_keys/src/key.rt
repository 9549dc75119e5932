// Keys of posting lists.
ghost use Rattle.std.specs.Prelude.{◌≡◌, IfOk};
ghost use Rattle.std.specs.Ordering.{nat_cmp, ordering_then};
ghost use Rattle.dg_keys.specs.Keys.{pred_of, kind_rank, field_cmp};

use dg_sets::InOrder;
use dg_tokens::{IndexToken, cmp_token, copy_token};
use dg_values::{Mem, OutOfMemory, Str};
use std::alloc::Global;
use std::cmp::Ordering;

/// The name of a posting list of a predicate.
#[derive(Debug, Drop)]
pub enum Key {
    /// The objects of the subject `s`.
    Data { p: Str, s: u64 },
    /// The subjects with a value that has the token.
    Index { p: Str, t: IndexToken },
    /// The subjects that point to the node `o`.
    Reverse { p: Str, o: u64 },
    /// The nodes with exactly `n` objects.
    Count { p: Str, n: u64 },
    /// The nodes that exactly `n` subjects point to.
    RCount { p: Str, n: u64 },
}

impl Key {
    /// An equal key. The error is want of memory.
    pub fn copy(&self, alloc: Global) -> Mem<Key>
        ensures { IfOk result (λ key. key ≡ self.now) }
    {
        let p = self.pred().copy(alloc)?;
        match self {
            Key::Data { s, .. } => Ok(Key::Data { p, s: *s }),
            Key::Index { t, .. } => Ok(Key::Index {
                p,
                t: copy_token(alloc, t)?,
            }),
            Key::Reverse { o, .. } => Ok(Key::Reverse { p, o: *o }),
            Key::Count { n, .. } => Ok(Key::Count { p, n: *n }),
            Key::RCount { n, .. } => Ok(Key::RCount { p, n: *n }),
        }
    }

    /// The predicate's name.
    pub fn pred(&self) -> &Str
        ensures { result.now ≡ pred_of self.now }
    {
        match self {
            Key::Data { p, .. } => p,
            Key::Index { p, .. } => p,
            Key::Reverse { p, .. } => p,
            Key::Count { p, .. } => p,
            Key::RCount { p, .. } => p,
        }
    }

    // The place of the kind among the kinds.
    pub(crate) fn rank(&self) -> u8
        ensures { result ≡ kind_rank self.now }
    {
        match self {
            Key::Data { .. } => 1,
            Key::Index { .. } => 2,
            Key::Reverse { .. } => 3,
            Key::Count { .. } => 4,
            Key::RCount { .. } => 5,
        }
    }

    // The order of two keys of one predicate: by the last field, where they are of one kind.
    #[tactic(auto, using(crate::proofs::KindsFirst::kinds_first))]
    fn compare_fields(&self, other: &Key) -> Ordering
        ensures { result ≡ ordering_then (nat_cmp (kind_rank self.now) (kind_rank other.now)) (field_cmp self.now other.now) }
    {
        match (self, other) {
            (Key::Data { s: a, .. }, Key::Data { s: b, .. }) => a.cmp(b),
            (Key::Index { t: a, .. }, Key::Index { t: b, .. }) => cmp_token(a, b),
            (Key::Reverse { o: a, .. }, Key::Reverse { o: b, .. }) => a.cmp(b),
            (Key::Count { n: a, .. }, Key::Count { n: b, .. }) => a.cmp(b),
            (Key::RCount { n: a, .. }, Key::RCount { n: b, .. }) => a.cmp(b),
            (a, b) => a.rank().cmp(&b.rank()),
        }
    }
}

/// By predicate, kind, and then node, number or token.
impl InOrder for Key {
    ghost use Rattle.dg_keys.specs.Keys.{key_cmp};
    ghost use Rattle.dg_keys.specs.KeyOrder.{key_order};

    ghost order = { key_cmp };

    ghost total = { key_order };

    fn compare(&self, other: &Key) -> Ordering {
        match self.pred().compare(other.pred()) {
            Ordering::Equal => self.compare_fields(other),
            unequal => unequal,
        }
    }
}
