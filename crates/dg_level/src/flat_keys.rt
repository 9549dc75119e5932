// Keys of fields, which an index of a flat object keeps in order.
ghost use Rattle.std.specs.Prelude.{◌≡◌, IfOk};
ghost use Rattle.std.specs.Arc.{arc_value};

use dg_tree::Field;
use dg_values::{Mem, OutOfMemory};
use std::cmp::Ordering;
use std::marker::Model;
use std::sync::Arc;

/// The key of a field, which it shares with the field. Contracts see its bytes.
#[derive(Drop)]
pub struct FlatKey {
    pair: Arc<Field>,
}

impl Model for FlatKey {
    ghost use Rattle.std.specs.Prelude.{List, ℕ};
    ghost use Rattle.std.specs.Arc.{arc_value};

    ghost Value = { List ℕ };

    ghost view = { λ key. (arc_value key.pair).key };
}

impl FlatKey {
    /// The key of a field. No text is copied. The error is want of memory.
    pub fn of(pair: &Arc<Field>) -> Mem<FlatKey>
        ensures { IfOk result (λ key. key ≡ (arc_value pair.now).key) }
    {
        let pair = Arc::try_clone(pair)?;
        Ok(FlatKey { pair })
    }

    /// The key, borrowed.
    pub fn as_str(&self) -> &str
        ensures { result.now ≡ self.now }
    {
        self.pair.key.as_str()
    }
}

impl PartialEq for FlatKey {
    ghost use Rattle.std.specs.Prelude.{bytes_eq};
    ghost use Rattle.std.specs.Cmp.{partial_equiv_from_equiv};
    ghost use Rattle.std.specs.Cmp.Lexicographic.{nat_list_eq_equiv};

    ghost eq = { λ a b. bytes_eq a b };

    ghost laws = { partial_equiv_from_equiv nat_list_eq_equiv };

    fn eq(&self, other: &FlatKey) -> bool {
        self.as_str() == other.as_str()
    }
}

impl Eq for FlatKey {
    ghost use Rattle.std.specs.Cmp.Lexicographic.{nat_list_eq_equiv};

    ghost laws = { nat_list_eq_equiv };
}

/// By bytes; a beginning comes before what goes on.
impl PartialOrd for FlatKey {
    ghost use Rattle.std.specs.Prelude.{Some};
    ghost use Rattle.std.specs.Ordering.{nat_cmp};
    ghost use Rattle.std.specs.Cmp.Lexicographic.{slice_cmp, texts_po};

    ghost partial_cmp = { λ a b. Some (slice_cmp nat_cmp a b) };

    ghost laws = { texts_po };

    fn partial_cmp(&self, other: &FlatKey) -> Option<Ordering> {
        Some(self.cmp(other))
    }
}

/// By bytes; a beginning comes before what goes on.
impl Ord for FlatKey {
    ghost use Rattle.std.specs.Prelude.{refl};
    ghost use Rattle.std.specs.Ordering.{nat_cmp};
    ghost use Rattle.std.specs.Cmp.Lexicographic.{slice_cmp, nat_list_cmp_total, texts_ties};

    ghost cmp = { λ a b. slice_cmp nat_cmp a b };

    ghost total = { nat_list_cmp_total };

    ghost matches_partial_cmp = { λ a b. refl };

    ghost matches_eq = { λ a b. texts_ties a b };

    fn cmp(&self, other: &FlatKey) -> Ordering {
        self.as_str().cmp(other.as_str())
    }
}
