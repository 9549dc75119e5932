// The order of keys in std's words.
ghost use Rattle.std.specs.Prelude.{◌≡◌, refl};
ghost use Rattle.std.specs.Ordering.{eq_by_cmp, as_partial_cmp};
ghost use Rattle.std.specs.Cmp.{partial_equiv_from_equiv, eq_by_cmp_equiv, po};
ghost use Rattle.dg_keys.specs.Keys.{key_cmp};
ghost use Rattle.dg_keys.specs.KeyOrder.{key_total};

use crate::Key;
use dg_sets::InOrder;
use std::cmp::Ordering;

/// Keys that the order doesn't tell apart.
impl PartialEq for Key {
    ghost eq = { eq_by_cmp key_cmp };

    ghost laws = { partial_equiv_from_equiv (eq_by_cmp_equiv key_total) };

    fn eq(&self, other: &Key) -> bool {
        self.compare(other).is_eq()
    }
}

impl Eq for Key {
    ghost laws = { eq_by_cmp_equiv key_total };
}

/// As their order in sets.
impl PartialOrd for Key {
    ghost partial_cmp = { as_partial_cmp key_cmp };

    ghost laws = { po key_total (λ x y. refl) };

    fn partial_cmp(&self, other: &Key) -> Option<Ordering> {
        Some(self.cmp(other))
    }
}

/// As their order in sets.
impl Ord for Key {
    ghost cmp = { key_cmp };

    ghost total = { key_total };

    ghost matches_partial_cmp = { λ x y. refl };

    ghost matches_eq = { λ x y. refl };

    fn cmp(&self, other: &Key) -> Ordering {
        self.compare(other)
    }
}
