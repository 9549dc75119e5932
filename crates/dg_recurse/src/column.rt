// What is fetched for a field of the query.
ghost use Rattle.std.specs.Prelude.{◌≡◌, [], slice_index_or};
ghost use Rattle.dg_recurse.specs.Columns.{own_of, nodes_of};

use dg_values::{List, Str};

/// What is fetched for one field of the query, of each node by its place.
#[derive(Drop)]
pub enum Column {
    /// What it shows of the node itself, as a text: its fields with commas between them, or an empty text.
    Own(Vec<Str>),
    /// The nodes to which an edge leads, by their places.
    Edge {
        /// The text of its key, as `"friend":`.
        key: Str,
        /// Whether its first node is shown by itself, and not an array.
        single: bool,
        /// The list of each node.
        lists: Vec<List<usize>>,
    },
}

// The text at a place, which is empty behind the last.
fn text_at(texts: &[Str], place: usize) -> &str
    ensures { result.now ≡ slice_index_or texts.now place [] }
{
    match texts.get(place) {
        Some(text) => text.as_str(),
        None => "",
    }
}

// The list at a place, which is empty behind the last.
fn list_at(lists: &[List<usize>], place: usize) -> &[usize]
    ensures { result.now ≡ slice_index_or lists.now place [] }
{
    match lists.get(place) {
        Some(list) => list.as_slice(),
        None => &[],
    }
}

impl Column {
    /// The text of what it shows of the node at a place itself.
    pub(crate) fn own(&self, place: usize) -> &str
        ensures { result.now ≡ own_of self.now place }
    {
        match self {
            Column::Own(texts) => text_at(texts.as_slice(), place),
            Column::Edge { .. } => "",
        }
    }

    /// The nodes to which it leads from a place.
    pub(crate) fn nodes(&self, place: usize) -> &[usize]
        ensures { result.now ≡ nodes_of self.now place }
    {
        match self {
            Column::Own(_) => &[],
            Column::Edge { lists, .. } => list_at(lists.as_slice(), place),
        }
    }
}
