// The orders of what other crates keep in sets.
use crate::InOrder;
use dg_values::{Posting, Str, cmp_posting};
use std::cmp::Ordering;

/// Texts by bytes; a beginning comes before what goes on.
impl InOrder for Str {
    ghost use Rattle.dg_values.specs.Order.{text_cmp};
    ghost use Rattle.std.specs.Cmp.{tied_itself};
    ghost use Rattle.std.specs.Cmp.Lexicographic.{nat_list_cmp_total};
    ghost use Rattle.dg_values.proofs.OrderLaws.{same_bytes};

    ghost order = { text_cmp };

    ghost total = { record { antisymm = nat_list_cmp_total.antisymm; trans = nat_list_cmp_total.trans; same = same_bytes; itself = tied_itself nat_list_cmp_total } };

    fn compare(&self, other: &Str) -> Ordering {
        self.cmp(other)
    }
}

/// Nodes before values.
impl InOrder for Posting {
    ghost use Rattle.dg_values.specs.Order.{posting_cmp};
    ghost use Rattle.dg_values.proofs.OrderLaws.{posting_order};

    ghost order = { posting_cmp };

    ghost total = { posting_order };

    fn compare(&self, other: &Posting) -> Ordering {
        cmp_posting(self, other)
    }
}

/// Numbers by size.
impl InOrder for u64 {
    ghost use Rattle.std.specs.Ordering.{nat_cmp};
    ghost use Rattle.std.specs.Cmp.{nat_cmp_total, tied_itself};
    ghost use Rattle.std.proofs.lemmas.Map.Lookups.{exact_unsigned};

    ghost order = { nat_cmp };

    ghost total = { record { antisymm = nat_cmp_total.antisymm; trans = nat_cmp_total.trans; same = exact_unsigned; itself = tied_itself nat_cmp_total } };

    fn compare(&self, other: &u64) -> Ordering {
        self.cmp(other)
    }
}
