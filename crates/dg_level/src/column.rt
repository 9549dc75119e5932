// What the nodes of a level show under a field, before it is written row by row.
ghost use Rattle.std.specs.Prelude.{◌≡◌, ◌≤◌, [], IsTrue};
ghost use Rattle.dg_level.specs.Columns.{held_by, room_of};
ghost use Rattle.dg_level.specs.Rows.{total};

use crate::Rows;
use crate::left::Left;
use dg_parse::QEdge;
use dg_uids::Uids;
use dg_values::{List, Str};

/// The nodes to which an edge leads from the nodes of a level.
#[derive(Drop)]
pub struct Below {
    /// Whether it leads to one node at most.
    pub single: bool,
    /// The texts of the keys under which the number of nodes is asked for.
    pub counts: List<Str>,
    /// The list of each node of the level, in their order.
    pub lists: Vec<List<u64>>,
    /// All nodes of the lists: the level below.
    pub level: Uids,
    /// What each of them shows.
    pub rows: Rows,
}

/// What is shown under a field.
#[derive(Drop)]
pub enum Content {
    /// Nothing.
    Nothing,
    /// The number of the node.
    Uid,
    /// The number of its objects by an edge, or of its subjects.
    Count(QEdge),
    /// The value of the variable at this place.
    Value(usize),
    /// Values.
    Values {
        /// The predicate.
        pred: Str,
        /// Whether a node may have more than one.
        list: bool,
        /// What is known of them.
        known: Left,
    },
    /// Nodes.
    Nodes(Below),
}

/// A field of the nodes of a level.
#[derive(Drop)]
pub struct Column {
    /// The text of its key.
    pub key: Str,
    /// What is shown under it.
    pub content: Content,
}

/// Whether nothing is shown of any list: its nodes show nothing, and no number of nodes is asked for.
pub fn shows_none(below: &Below) -> bool
    ensures counts { IsTrue result → below.now.counts ≡ [] }
    ensures rows { IsTrue result → total below.now.rows.rows ≡ 0 }
{
    below.counts.is_empty() && below.rows.total() == 0
}

/// How many bytes the rows of the level below have.
pub fn held_by(content: &Content) -> usize
    ensures bytes { result ≡ held_by content.now }
    ensures within { result ≤ room_of content.now }
{
    match content {
        Content::Nodes(below) => below.rows.total(),
        Content::Nothing
        | Content::Uid
        | Content::Count(_)
        | Content::Value(_)
        | Content::Values { .. } => 0,
    }
}
