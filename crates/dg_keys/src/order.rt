// The order of the keys by which commits conflict.
ghost use Rattle.std.specs.Prelude.{◌≡◌};
ghost use Rattle.std.specs.declared.cmp.Ordering.{Ordering};
ghost use Rattle.dg_keys.specs.Conflicts.{conflict_cmp, conflict_rank, option_cmp};
ghost use Rattle.dg_values.specs.Order.{posting_cmp};

use crate::ConflictKey;
use dg_sets::InOrder;
use dg_tokens::cmp_token;
use dg_values::Posting;
use std::cmp::Ordering;

impl ConflictKey {
    // The place of the kind among the kinds.
    fn rank(&self) -> u8
        ensures { result ≡ conflict_rank self.now }
    {
        match self {
            ConflictKey::Data { .. } => 0,
            ConflictKey::Index { .. } => 1,
            ConflictKey::Count { .. } => 2,
            ConflictKey::RCount { .. } => 3,
        }
    }
}

// No object comes before one.
fn cmp_objects(a: &Option<Posting>, b: &Option<Posting>) -> Ordering
    ensures { result ≡ option_cmp posting_cmp a.now b.now }
{
    match (a, b) {
        (None, None) => Ordering::Equal,
        (None, Some(_)) => Ordering::Less,
        (Some(_), None) => Ordering::Greater,
        (Some(a), Some(b)) => a.compare(b),
    }
}

/// The order of keys: by kind, predicate, and token or node; a key without subject or object comes before those with
/// one. It takes no memory.
pub fn cmp_conflict(a: &ConflictKey, b: &ConflictKey) -> Ordering
    ensures { result ≡ conflict_cmp a.now b.now }
{
    match (a, b) {
        (ConflictKey::Data { p, s, o }, ConflictKey::Data { p: q, s: t, o: r }) => {
            p.cmp(q).then(s.cmp(t)).then(cmp_objects(o, r))
        }
        (ConflictKey::Index { p, t, s }, ConflictKey::Index { p: q, t: u, s: r }) => {
            p.cmp(q).then(cmp_token(t, u)).then(s.cmp(r))
        }
        (ConflictKey::Count { p, s }, ConflictKey::Count { p: q, s: t }) => p.cmp(q).then(s.cmp(t)),
        (ConflictKey::RCount { p, o }, ConflictKey::RCount { p: q, o: r }) => {
            p.cmp(q).then(o.cmp(r))
        }
        (a, b) => a.rank().cmp(&b.rank()),
    }
}

/// As [`cmp_conflict`] orders them.
impl InOrder for ConflictKey {
    ghost use Rattle.dg_keys.specs.KeyOrder.{conflict_order};

    ghost order = { conflict_cmp };

    ghost total = { conflict_order };

    fn compare(&self, other: &ConflictKey) -> Ordering {
        cmp_conflict(self, other)
    }
}

/// Two keys are equal where neither comes before the other.
impl PartialEq for ConflictKey {
    ghost use Rattle.std.specs.Ordering.{is_eq};
    ghost use Rattle.std.specs.Cmp.{partial_equiv_from_equiv, eq_by_cmp_equiv};
    ghost use Rattle.dg_keys.specs.KeyOrder.{conflict_total};

    ghost eq = { λ a b. is_eq (conflict_cmp a b) };

    ghost laws = { partial_equiv_from_equiv (eq_by_cmp_equiv conflict_total) };

    fn eq(&self, other: &ConflictKey) -> bool {
        cmp_conflict(self, other).is_eq()
    }
}

impl Eq for ConflictKey {
    ghost use Rattle.std.specs.Cmp.{eq_by_cmp_equiv};
    ghost use Rattle.dg_keys.specs.KeyOrder.{conflict_total};

    ghost laws = { eq_by_cmp_equiv conflict_total };
}

/// As [`cmp_conflict`] orders them.
impl PartialOrd for ConflictKey {
    ghost use Rattle.std.specs.Prelude.{Some};
    ghost use Rattle.std.specs.Cmp.{partial_order_from_total};
    ghost use Rattle.dg_keys.specs.KeyOrder.{conflict_total};

    ghost partial_cmp = { λ a b. Some (conflict_cmp a b) };

    ghost laws = { partial_order_from_total conflict_total };

    fn partial_cmp(&self, other: &ConflictKey) -> Option<Ordering> {
        Some(cmp_conflict(self, other))
    }
}

/// As [`cmp_conflict`] orders them.
impl Ord for ConflictKey {
    ghost use Rattle.std.specs.Prelude.{refl};
    ghost use Rattle.dg_keys.specs.KeyOrder.{conflict_total};

    ghost cmp = { conflict_cmp };

    ghost total = { conflict_total };

    ghost matches_partial_cmp = { λ a b. refl };

    ghost matches_eq = { λ a b. refl };

    fn cmp(&self, other: &ConflictKey) -> Ordering {
        cmp_conflict(self, other)
    }
}
