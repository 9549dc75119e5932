// The tablet of a predicate among tablets that ascend by predicate, found by halves.
ghost use Rattle.std.specs.Prelude.{◌≡◌, ◌≤◌, true, false, find, length, option_copied};
ghost use Rattle.std.specs.List.Sorted.{IsPartitionPoint};
ghost use Rattle.std.specs.Ordering.{is_lt};
ghost use Rattle.dg_values.specs.Ascending.{Ascends};
ghost use Rattle.dg_values.specs.Order.{same_text, text_cmp};
ghost use Rattle.dg_keys.specs.Tablets.{tablet_cmp};

use dg_keys::Tablet;

// Whether a tablet is of a predicate.
fn is_of(tablet: &Tablet, pred: &str) -> bool
    ensures { result ≡ same_text tablet.now.pred pred.now }
{
    tablet.pred.as_str().cmp(pred).is_eq()
}

// How many tablets are of a predicate below this one.
fn below(tablets: &[Tablet], pred: &str) -> usize
    requires { Ascends tablet_cmp tablets.now }
    ensures within { result ≤ length tablets.now }
    ensures point { IsPartitionPoint (λ tablet. is_lt (text_cmp tablet.pred pred.now) ≡ true) (λ tablet. is_lt (text_cmp tablet.pred pred.now) ≡ false) tablets.now result }
{
    tablets.partition_point(|tablet| tablet.pred.as_str().cmp(pred).is_lt())
}

// The tablet of a predicate, where it has one.
pub fn tablet_of<'a>(tablets: &'a [Tablet], pred: &str) -> Option<&'a Tablet>
    requires { Ascends tablet_cmp tablets.now }
    ensures { option_copied result ≡ find (λ tablet. same_text tablet.pred pred.now) tablets.now }
{
    let place = below(tablets, pred);
    if place < tablets.len() && is_of(&tablets[place], pred) {
        Some(&tablets[place])
    } else {
        None
    }
}
