// What is known of the nodes that a cascade leaves below a level.
ghost use Rattle.std.specs.Prelude.{◌≡◌};
ghost use Rattle.std.specs.Vec.Iter.{into_iter_items};
ghost use Rattle.dg_level.specs.Left.{first_left, after_first};

use dg_uids::Uids;
use dg_values::{List, Value};
use std::vec::IntoIter;

/// What is known under a field for the nodes of a level.
#[derive(Drop)]
#[cycle(left)]
pub enum Left {
    /// Nothing.
    Unknown,
    /// Of an edge to values.
    Values {
        /// Nodes whose values were read.
        of: Uids,
        /// The values of each of them, in their order.
        values: List<List<Value>>,
    },
    /// Of an edge to nodes.
    Nodes {
        /// Nodes whose lists were read.
        of: Uids,
        /// The list of each of them, in their order.
        lists: List<List<u64>>,
        /// Those nodes of the lists at which none of the fields in its braces is missing.
        whole: Uids,
        /// The same of each of these fields in turn, for those nodes.
        inside: List<Left>,
    },
}

/// What is known under the next field; nothing where there is none.
pub fn next_left(left: &mut IntoIter<Left>) -> Left
    ensures first { result ≡ first_left (into_iter_items left.old) }
    ensures rest { into_iter_items left.new ≡ after_first (into_iter_items left.old) }
{
    match left.next() {
        Some(first) => first,
        None => Left::Unknown,
    }
}
